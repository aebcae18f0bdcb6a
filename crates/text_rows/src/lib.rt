// Items one after the other, each after a space, up to the closing bracket: how they are read, and what is kept of them.
#![tactic(auto)]

ghost use Rattle.std.specs.Prelude.{◌≡◌, List, ℕ, ◌+◌, ◌≤◌, length, drop, MatchOption};
ghost use Rattle.std.proofs.Math.Option.{none};
ghost use Rattle.grammar.specs.Shapes.{Read, rest, bracket};
ghost use Rattle.text_names.specs.declared.Declared as names;
ghost use Rattle.text_rows.specs.Rows.{Room, ItemEnd, RowEnd, BracketEnd};

use text_names::Declared;
use text_scan::past;

// What can stand in a row: how one item is read, and what is kept of those so far.
pub trait Item {
    type Kept: Copy;

    ghost Value: { Type 0 };

    ghost Case: { Type 0 };

    ghost read: { List ℕ → Read Value };

    ghost most: { ℕ };

    ghost Held: { List ℕ → names.Declared → Case → List Value → Self.Kept → Type 0 };

    // The item that is next is added to what is kept.
    // Text and names stay two parameters: the names are written from line to line and each line is read in a longer part of the text, and of a struct of both each contract would read the text, `names.Valid` and `declared_of` through it.
    fn add(text: &[u8], d: Declared, at: usize, kept: Self::Kept) -> Option<Taken<Self::Kept>>
        requires { (at ≤ length text.now) × Room (Held text.now d) most 1 kept }
        ensures { MatchOption result (read (drop at text.now) ≡ none) (ItemEnd read (Held text.now d) text.now at kept) };
}

// What is kept of what was read, and where that ends.
#[derive(Clone, Copy)]
pub struct Taken<K> {
    pub kept: K,
    pub end: usize,
}

// At most n items, each after a space, up to the closing bracket, are added to what is kept.
pub fn read_row<T: Item>(
    text: &[u8],
    d: Declared,
    at: usize,
    kept: T::Kept,
    n: usize,
) -> Option<Taken<T::Kept>>
    requires { (at ≤ length text.now) × Room (T.Held text.now d) T.most n kept }
    ensures { MatchOption result (rest T.read n (drop at text.now) ≡ none) (RowEnd T.read (T.Held text.now d) text.now at n kept) }
{
    let mut so_far = kept;
    let mut i = at;
    for _ in 0..n {
        if let Some(end) = past(text, i, b')') {
            return Some(Taken { kept: so_far, end });
        }
        let t = T::add(text, d, past(text, i, b' ')?, so_far)?;
        so_far = t.kept;
        i = t.end;
    }
    let end = past(text, i, b')')?;
    Some(Taken { kept: so_far, end })
}

// A bracket of 1 to n + 1 items: they are added to what is kept.
pub fn read_bracket<T: Item>(
    text: &[u8],
    d: Declared,
    at: usize,
    kept: T::Kept,
    n: usize,
) -> Option<Taken<T::Kept>>
    requires { Room (T.Held text.now d) T.most (n + 1) kept }
    ensures { MatchOption result (bracket T.read n (drop at text.now) ≡ none) (BracketEnd T.read (T.Held text.now d) text.now at n kept) }
{
    let first = T::add(text, d, past(text, at, b'(')?, kept)?;
    read_row::<T>(text, d, first.end, first.kept, n)
}
