// The variables of a part of a line, in order of first appearance.
#![tactic(auto)]

ghost use Rattle.std.specs.Prelude.{◌≡◌, [], ◌-◌, ◌≤◌, ◌<◌, length, drop, MatchOption};
ghost use Rattle.grammar.specs.Declarations.{member, extend};
ghost use Rattle.display_shapes.specs.Rows.{pick, Shown};
ghost use Rattle.display_parts.specs.Placed.{spaced, heading, Heads};
ghost use Rattle.display_variables.specs.Order.{behind_at, before, Within, IsStale, FreshEnd};

use display_parts::Part;
use display_shapes::{Name, Span, spaced_end};
use text_scan::same_words;

// Whether the name stands behind byte i.
fn is_behind(line: &[u8], i: usize, name: &[u8]) -> bool
    requires { i < length line.now }
    ensures { result ≡ member name.now (behind_at line.now i) }
{
    spaced_end::<Name>(line, i).is_some_and(|end| same_words(name, &line[i + 1..end]))
}

// Whether the name stands behind a space that is among the bytes from `from` to `to`.
fn stands(line: &[u8], from: usize, to: usize, name: &[u8]) -> bool
    requires { (from ≤ to) × (to ≤ length line.now) }
    ensures { result ≡ member name.now (spaced (to - from) (drop from line.now)) }
{
    (from..to).any(|i| is_behind(line, i, name))
}

// Whether the name is the head.
fn is_head(line: &[u8], head: Option<Span>, name: &[u8]) -> bool
    requires { Heads line.now head }
    ensures { result ≡ member name.now (heading line.now head) }
{
    head.is_some_and(|h| same_words(name, &line[h.from..h.to]))
}

// Whether the name stands in the part before byte i.
// That the part lies in the line stays a clause: as an invariant it would ask for the line as a field of each part, for this crate alone, since `display_parts` promises more of a part (`Placed`) and would name the line through it.
fn is_known(line: &[u8], p: Part, i: usize, name: &[u8]) -> bool
    requires { Within line.now p × (p.from ≤ i) × (i ≤ length line.now) }
    ensures { result ≡ member name.now (before line.now p i) }
{
    is_head(line, p.head, name) || stands(line, p.from, i, name)
}

// Where the name behind byte i ends, if it does not stand in the part before.
fn fresh_end(line: &[u8], p: Part, i: usize) -> Option<usize>
    requires { Within line.now p × (p.from ≤ i) × (i < length line.now) }
    ensures { MatchOption result (IsStale line.now p i) (FreshEnd line.now p i) }
{
    let end = spaced_end::<Name>(line, i)?;
    if is_known(line, p, i, &line[i + 1..end]) {
        return None;
    }
    Some(end)
}

// Variable j of a part, of which n variables stand in its head and j is none.
// The count stays by hand: `filter_map` with `nth` would be shorter here, but its law asks for each byte's span as a function, a second definition beside `FreshEnd`, which says of each answer where the name ends already.
fn later(line: &[u8], p: Part, n: usize, j: usize) -> Option<Span>
    requires { Within line.now p × (length (heading line.now p.head) ≡ n) × (n ≤ j) }
    ensures { Shown line.now (pick (extend [] (before line.now p p.end)) j) result }
{
    let mut count = n;
    for i in p.from..p.end {
        if let Some(to) = fresh_end(line, p, i) {
            if count == j {
                return Some(Span { from: i + 1, to });
            }
            count += 1;
        }
    }
    None
}

// Variable j of a part, from 0.
pub fn variable_of(line: &[u8], p: Part, j: usize) -> Option<Span>
    requires { Within line.now p }
    ensures { Shown line.now (pick (extend [] (before line.now p p.end)) j) result }
{
    let Some(head) = p.head else {
        return later(line, p, 0, j);
    };
    if j == 0 {
        return Some(head);
    }
    later(line, p, 1, j)
}
