// Which lines to strike: the cheapest cure of a text.
#![tactic(auto)]

ghost use Rattle.std.specs.Prelude.{List, ℕ, ◌≤◌};
ghost use Rattle.semantics.specs.Models.{Program, Question};
ghost use Rattle.striking.specs.Striking.{most};
ghost use Rattle.strike_list.specs.Lists.{listed};
ghost use Rattle.strike_calls.specs.Choices.{Decided};
ghost use Rattle.cure.specs.Curing.{Advises, Cures};
ghost use Rattle.cure.specs.Soonest.{size_at, Soonest};

use rows::Refusal;
use strike_calls::Choices;
use strike_list::{Lines, MOST};
use strike_table::Table;

// The number of the smallest unreached choice, the highest of equally small ones.
// The loop stays beside `filter` and `min_by_key`: neither that each choice left can be asked for its size nor which of equal sizes is taken could be proved, and no lemma of the library says it of a reversed range.
fn smallest(l: Lines, t: Table) -> Option<usize>
    requires { (l.count ≤ most) × (t.total ≤ 1024) }
    ensures { Soonest (size_at (listed l) t.said) t.total result }
{
    let mut best = None;
    let mut least = MOST + 1;
    for i in (0..t.total).rev() {
        if !t.said[i].unwrap_or(false) {
            let s = strike_list::choose(l, i as u32).count;
            if s < least {
                best = Some(i);
                least = s;
            }
        }
    }
    best
}

// The lines of the smallest unreached choice.
fn conclude(c: Choices) -> Option<Lines>
    requires { (c.lines.count ≤ most) × (c.table.total ≤ 1024) }
    ensures { (P : Program) (Q : Question) (L : List ℕ) → Decided P Q L c → Advises P Q L result }
{
    let n = smallest(c.lines, c.table)?;
    Some(strike_list::choose(c.lines, n as u32))
}

// Reads a text and a list of lines, and finds the fewest of them to strike, if a choice of them does; a refusal of the text or of the list leaves the work area as it is.
pub fn cure(text: &[u8], list: &[u32], work: &mut [u8]) -> Result<Option<Lines>, Refusal>
    ensures { Cures text.now list.now work.old result work.new }
{
    let choices = strike_calls::decide(text, list, work)?;
    Ok(conclude(choices))
}
