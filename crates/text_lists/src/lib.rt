// The lists of state relations of `new` and `next` lines.
#![tactic(auto)]

ghost use Rattle.std.specs.Prelude.{◌≡◌, ◌≤◌, length, drop, MatchOption, ⊤};
ghost use Rattle.std.proofs.Math.Option.{none};
ghost use Rattle.limits.specs.Limits as limit;
ghost use Rattle.grammar.specs.Bytes.{Word};
ghost use Rattle.grammar.specs.Shapes.{name, list};
ghost use Rattle.text_names.specs.Names as names;
ghost use Rattle.text_lists.specs.Lists.{Keeps, NameAdded, ListEnd};

use limits::LIST;
use rows::Row;
use text_names::Declared;
use text_rows::{Item, Taken, read_bracket};

// The names of a list behind its first.
const FURTHER: usize = LIST - 1;

// The set of the names' relations, or the lowest row of the names, and where the list ends.
pub type List = Taken<Result<u32, Row>>;

// The name with those bytes is added.
// Text and names stay two parameters, as in `text_rows::Item::add`.
fn add_name(text: &[u8], d: Declared, s: Result<u32, Row>, word: &[u8]) -> Result<u32, Row>
    requires { names.Valid text.now d }
    ensures { NameAdded (names.declared_of text.now d) s word.now result }
{
    let code = text_faults::state_code(text_names::find(text, &d, word));
    let (set, c) = text_faults::both(s, code)?;
    Ok(set | (1 << c))
}

// A name of a list. What is kept of the names is the set of their relations, or their lowest row.
pub struct Listed;

impl Item for Listed {
    type Kept = Result<u32, Row>;

    ghost Value = { Word };

    ghost Case = { ⊤ };

    ghost read = { name };

    ghost most = { limit.list };

    ghost Held = { Keeps };

    fn add(text: &[u8], d: Declared, at: usize, chosen: Result<u32, Row>) -> Option<List> {
        let end = text_scan::name_end(text, at)?;
        Some(List {
            kept: add_name(text, d, chosen, &text[at..end]),
            end,
        })
    }
}

// The list that is next.
pub fn read_list(text: &[u8], d: Declared, at: usize) -> Option<List>
    requires { (at ≤ length text.now) × names.Valid text.now d }
    ensures { MatchOption result (list (drop at text.now) ≡ none) (ListEnd text.now (names.declared_of text.now d) at) }
{
    if let Some(end) = text_scan::past_bytes(text, at, b"()") {
        return Some(List { kept: Ok(0), end });
    }
    read_bracket::<Listed>(text, d, at, Ok(0), FURTHER)
}
