// The declarations of the bracket text: `state` and `rel` lines after their first word.
#![tactic(auto)]

ghost use Rattle.std.specs.Prelude.{◌≡◌, ◌≤◌, ◌<◌, length, drop, MatchOption};
ghost use Rattle.std.proofs.Math.Option.{none};
ghost use Rattle.limits.specs.Limits as limit;
ghost use Rattle.grammar.specs.Declarations.{lookup};
ghost use Rattle.grammar.specs.Rows.{row, again};
ghost use Rattle.grammar.specs.Shapes.{arity, state_rest, rel_rest, whole};
ghost use Rattle.text_faults.specs.Faults.{fault_in};
ghost use Rattle.text_names.specs.Names as names;
ghost use Rattle.text_declarations.specs.Declares.{Limited, state_number, rel_number, Entered, ArityAt, StateAt, RelAt, DeclarationEnd};

use limits::{PAIRS, RELS, STATES};
use rows::Row;
use text_names::{Declared, Name};
use text_scan::past;

// No relation with that name, or row 5.
// Text and names stay two parameters, for the reason at `text_rows::Item::add`; the word is another one for each line.
fn unused(text: &[u8], d: &Declared, word: &[u8]) -> Result<(), Row>
    requires { names.Valid text.now d.now }
    ensures { fault_in result ≡ row 5 (again (lookup word.now (names.declared_of text.now d.now))) }
{
    if text_names::find(text, d, word).is_some() {
        return Err(Row::Again);
    }
    Ok(())
}

// Room for a state relation with that name, or row 4, then 5.
fn state_room(text: &[u8], d: &Declared, word: &[u8]) -> Result<(), Row>
    requires { names.Valid text.now d.now }
    ensures { fault_in result ≡ state_number (names.declared_of text.now d.now) word.now }
{
    if STATES <= text_names::tally_of(d, 0) {
        return Err(Row::Count);
    }
    unused(text, d, word)
}

// Room for a derived relation of arity n with that name, or row 4, then 5.
fn rel_room(text: &[u8], d: &Declared, word: &[u8], n: u32) -> Result<(), Row>
    requires { names.Valid text.now d.now }
    ensures { fault_in result ≡ rel_number (names.declared_of text.now d.now) word.now n }
{
    let nullary = text_names::tally_of(d, 1);
    let single = text_names::tally_of(d, 2);
    let pairs = text_names::tally_of(d, 3);
    if RELS <= nullary + single + pairs {
        return Err(Row::Count);
    }
    if n == 2 && PAIRS <= pairs {
        return Err(Row::Count);
    }
    unused(text, d, word)
}

// The name from a to e is declared with the next code of its class.
// The class stays a number: it is 0 of a state relation, else the arity that was read and 1 more, and a code is 32 times it and an index, so that an enum would be made of a number and turned back into one.
fn enter(d: Declared, a: usize, e: usize, class: u32) -> Declared
    requires { (d.count < limit.declared) × (length d.names ≡ limit.declared) × (a ≤ e) × (e < 4294967296) × (class < 4) }
    ensures { Entered d a e class result }
{
    let index = text_names::tally_of(&d, class);
    let name = Name {
        code: 32 * class + index as u32,
        start: a as u32,
        len: (e - a) as u32,
    };
    text_names::add(d, name)
}

// The arity that is next.
fn arity_at(text: &[u8], at: usize) -> Option<u32>
    ensures { MatchOption result (arity (drop at text.now) ≡ none) (ArityAt text.now at) }
{
    match *text.get(at)? {
        b @ b'0'..=b'2' => Some((b - b'0') as u32),
        _ => None,
    }
}

// Where the name of a `state` line ends, if the line has that shape up to its end.
// The text and the place stay two parameters: `text_scan` says why.
fn state_end(text: &[u8], at: usize) -> Option<usize>
    requires { at ≤ length text.now }
    ensures { MatchOption result (whole (state_rest (drop at text.now)) ≡ none) (StateAt text.now at) }
{
    let e = text_scan::name_end(text, at)?;
    let end = past(text, e, b')')?;
    (end == text.len()).then_some(e)
}

// `(state A)`.
pub fn read_state(text: &[u8], d: Declared, at: usize) -> Result<Declared, Row>
    requires { (at ≤ length text.now) × (length text.now < 4294967296) × names.Valid text.now d × Limited d }
    ensures { DeclarationEnd text.now d (state_rest (drop at text.now)) result }
{
    let e = state_end(text, at).ok_or(Row::Shape)?;
    state_room(text, &d, &text[at..e])?;
    Ok(enter(d, at, e, 0))
}

// Where the name of a `rel` line ends, and its arity, if the line has that shape up to its end.
// The text and the place stay two parameters: `text_scan` says why.
fn rel_end(text: &[u8], at: usize) -> Option<(usize, u32)>
    requires { at ≤ length text.now }
    ensures { MatchOption result (whole (rel_rest (drop at text.now)) ≡ none) (λ p. RelAt text.now at p.0 p.1) }
{
    let e = text_scan::name_end(text, at)?;
    let digit = past(text, e, b' ')?;
    let n = arity_at(text, digit)?;
    let end = past(text, digit + 1, b')')?;
    (end == text.len()).then_some((e, n))
}

// `(rel R n)`.
pub fn read_rel(text: &[u8], d: Declared, at: usize) -> Result<Declared, Row>
    requires { (at ≤ length text.now) × (length text.now < 4294967296) × names.Valid text.now d × Limited d }
    ensures { DeclarationEnd text.now d (rel_rest (drop at text.now)) result }
{
    let (e, n) = rel_end(text, at).ok_or(Row::Shape)?;
    rel_room(text, &d, &text[at..e], n)?;
    Ok(enter(d, at, e, n + 1))
}
