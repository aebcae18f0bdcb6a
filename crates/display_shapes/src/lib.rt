// Where the parts of a line end, whatever is declared.
#![tactic(auto)]

ghost use Rattle.std.specs.Prelude.{◌≤◌, length, List, ℕ};
ghost use Rattle.grammar.specs.Bytes.{Word};
ghost use Rattle.grammar.specs.Forms as form;
ghost use Rattle.grammar.specs.Shapes.{Read, name, rest, atom, literal, list, stage};
ghost use Rattle.display_shapes.specs.Ends.{Ends, after_space};
ghost use Rattle.display_shapes.specs.Rows.{Behind, Picked};

use limits::{BODY, LIST};
use text_scan::{at_byte, past, past_bytes};

// The bytes from `from` up to, not including, `to`.
#[derive(Clone, Copy)]
pub struct Span {
    pub from: usize,
    pub to: usize,
}

// The names of a list behind its first.
const NAMES: usize = LIST - 1;

// The literals of a stage behind its first.
const LITERALS: usize = BODY - 1;

// What can stand in a row: how it is read, and where one ends.
pub trait Item {
    ghost Value: { Type 0 };

    ghost read: { List ℕ → Read Value };

    // Where the item that is next ends.
    // The line and a place stay two parameters: of a slice from the place on the answer would be a length, which each reader would add to the place again.
    fn end(text: &[u8], at: usize) -> Option<usize>
        requires { at ≤ length text.now }
        ensures { Ends read text.now at result };
}

pub struct Name;

impl Item for Name {
    ghost Value = { Word };

    ghost read = { name };

    fn end(text: &[u8], at: usize) -> Option<usize> {
        text_scan::name_end(text, at)
    }
}

pub struct Names;

impl Item for Names {
    ghost Value = { List Word };

    ghost read = { list };

    fn end(text: &[u8], at: usize) -> Option<usize> {
        if let Some(end) = past_bytes(text, at, b"()") {
            return Some(end);
        }
        let e = text_scan::name_end(text, past(text, at, b'(')?)?;
        items_end::<Name>(text, e, NAMES)
    }
}

pub struct Literal;

impl Item for Literal {
    ghost Value = { form.Literal };

    ghost read = { literal };

    fn end(text: &[u8], at: usize) -> Option<usize> {
        let Some(inner) = past_bytes(text, at, b"(not ") else {
            return atom_end(text, at);
        };
        past(text, atom_end(text, inner)?, b')')
    }
}

pub struct Stage;

impl Item for Stage {
    ghost Value = { List form.Literal };

    ghost read = { stage };

    fn end(text: &[u8], at: usize) -> Option<usize> {
        let e = Literal::end(text, past(text, at, b'(')?)?;
        items_end::<Literal>(text, e, LITERALS)
    }
}

// Where a space and the item behind it end.
// The line and a place stay two parameters, as at `Item::end`.
pub fn spaced_end<T: Item>(text: &[u8], at: usize) -> Option<usize>
    ensures { Ends (after_space T.read) text.now at result }
{
    T::end(text, past(text, at, b' ')?)
}

// Where at most n items, each after a space, end with the closing bracket.
// The loop stays beside `text_rows::read_row`: a line is shown whatever is declared, so that there are no names to hand on and nothing is kept of an item.
// The line and a place stay two parameters, as at `Item::end`.
pub fn items_end<T: Item>(text: &[u8], at: usize, n: usize) -> Option<usize>
    requires { at ≤ length text.now }
    ensures { Ends (rest T.read n) text.now at result }
{
    let mut i = at;
    for _turn in 0..n {
        if let Some(end) = past(text, i, b')') {
            return Some(end);
        }
        i = spaced_end::<T>(text, i)?;
    }
    past(text, i, b')')
}

// Where the atom that is next ends.
// It and the end of a `Literal` stay beside `text_items::read_atom` and `read_literal`: those ask for a text of fewer than 2^32 bytes, to count an atom's variables, and a line is shown at any length.
// The line and a place stay two parameters, as at `Item::end`.
pub fn atom_end(text: &[u8], at: usize) -> Option<usize>
    requires { at ≤ length text.now }
    ensures { Ends atom text.now at result }
{
    let e = text_scan::name_end(text, past(text, at, b'(')?)?;
    items_end::<Name>(text, e, text.len() - at)
}

// The item behind byte i, unless that closes the row.
// The line and a place stay two parameters: to both ends of a span of what is left the place would be added again at each call.
fn item_behind<T: Item>(text: &[u8], i: usize) -> Option<Span>
    requires { i ≤ length text.now }
    ensures { Behind T.read text.now i result }
{
    if i == text.len() || at_byte(text, i, b')') {
        return None;
    }
    let to = T::end(text, i + 1)?;
    Some(Span { from: i + 1, to })
}

// Item k of the row of them that is next.
// The line and a place stay two parameters, as at `item_behind`.
pub fn item_at<T: Item>(text: &[u8], at: usize, k: usize) -> Option<Span>
    requires { at ≤ length text.now }
    ensures { Picked T.read text.now at k result }
{
    let mut i = at;
    for _turn in 0..k {
        i = item_behind::<T>(text, i)?.to;
    }
    item_behind::<T>(text, i)
}
