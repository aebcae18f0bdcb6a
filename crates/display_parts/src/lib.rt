// The parts of a line: where a clause or a stage stands in it.
#![tactic(auto)]

ghost use Rattle.std.specs.Prelude.{◌≡◌, ◌≤◌, length, drop};
ghost use Rattle.std.proofs.Math.Option.{some};
ghost use Rattle.grammar.specs.Bytes.{bytes};
ghost use Rattle.grammar.specs.Shapes.{after, rest};
ghost use Rattle.display_parts.specs.Parts.{part_of};
ghost use Rattle.display_parts.specs.Closes.{Closes, Ended};
ghost use Rattle.display_parts.specs.Placed.{Gives};

use display_shapes::{Item, Literal, Names, Span, Stage, atom_end, item_at, items_end, spaced_end};
use limits::{BODY, STAGES};
use text_scan::at_bytes;

// The stages of a question behind its first.
const FURTHER: usize = STAGES - 1;

// A `next` line's own variable is the head; the other variables stand from `from` on; the literals from `body` on, each after one byte. All end at `end`.
#[derive(Clone, Copy)]
pub struct Part {
    pub head: Option<Span>,
    pub from: usize,
    pub body: usize,
    pub end: usize,
}

// Whether the line ends with at most n items, each after a space, and the closing bracket.
// The line and a place stay two parameters, as those of `items_end`, whose answer is compared with the line's length here: of what is left of the line it would be compared with what is left.
fn closes<T: Item>(line: &[u8], at: usize, n: usize) -> bool
    requires { at ≤ length line.now }
    ensures { Closes (rest T.read n) line.now at result }
{
    items_end::<T>(line, at, n).is_some_and(|end| end == line.len())
}

// The clause with those places, if at most eight literals behind `body` end the line.
fn clause(line: &[u8], head: Option<Span>, from: usize, body: usize) -> Option<Part>
    requires { body ≤ length line.now }
    ensures { Ended line.now head from body result }
{
    closes::<Literal>(line, body, BODY).then_some(Part {
        head,
        from,
        body,
        end: line.len(),
    })
}

// The clause of a `rule` line.
fn rule_part(line: &[u8]) -> Option<Part>
    requires { (6 ≤ length line.now) × (after (bytes "(rule ") line.now ≡ some (drop 6 line.now)) }
    ensures { Gives line.now (part_of line.now 0) result }
{
    let h = atom_end(line, 6)?;
    clause(line, None, 6, h)
}

// The clause of a `new` line.
fn new_part(line: &[u8]) -> Option<Part>
    requires { (5 ≤ length line.now) × (after (bytes "(new ") line.now ≡ some (drop 5 line.now)) }
    ensures { Gives line.now (part_of line.now 0) result }
{
    let l = Names::end(line, 5)?;
    clause(line, None, l, l)
}

// The clause of a `next` line.
fn next_part(line: &[u8]) -> Option<Part>
    requires { (6 ≤ length line.now) × (after (bytes "(next ") line.now ≡ some (drop 6 line.now)) }
    ensures { Gives line.now (part_of line.now 0) result }
{
    let x = text_scan::name_end(line, 6)?;
    let p = spaced_end::<Names>(line, x)?;
    let b = spaced_end::<Names>(line, p)?;
    clause(line, Some(Span { from: 6, to: x }), b, b)
}

// The clause of a line.
// The three tests stay: each reader asks for a first word of its own, so that a table of functions could not hold all three.
fn clause_part(line: &[u8]) -> Option<Part>
    ensures { Gives line.now (part_of line.now 0) result }
{
    if at_bytes(line, 0, b"(rule ") {
        return rule_part(line);
    }
    if at_bytes(line, 0, b"(new ") {
        return new_part(line);
    }
    if at_bytes(line, 0, b"(next ") {
        return next_part(line);
    }
    None
}

// Stage n of an `ask` line, from 1.
// The test stays an `if`: `then_some` would go behind `item_at`, whose answer is a stage of the question only in a line that closes.
fn stage_part(line: &[u8], n: usize) -> Option<Part>
    requires { (n ≡ 0 → ⊥) × (5 ≤ length line.now) × (after (bytes "(ask ") line.now ≡ some (drop 5 line.now)) }
    ensures { Gives line.now (part_of line.now n) result }
{
    let q = Stage::end(line, 5)?;
    if !closes::<Stage>(line, q, FURTHER) {
        return None;
    }
    let s = item_at::<Stage>(line, 4, n - 1)?;
    Some(Part {
        head: None,
        from: s.from,
        body: s.from,
        end: s.to,
    })
}

// Part n of a line: its clause for 0, stage n of an `ask` line else.
// 0 stays for the clause: `eon_literal` and `eon_variable` are given the number so.
pub fn locate(line: &[u8], n: usize) -> Option<Part>
    ensures { Gives line.now (part_of line.now n) result }
{
    if n == 0 {
        return clause_part(line);
    }
    if at_bytes(line, 0, b"(ask ") {
        return stage_part(line, n);
    }
    None
}
