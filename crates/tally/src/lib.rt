// How much of the policy matters: how many choices of lines to strike are reached.
#![tactic(auto)]

ghost use Rattle.std.specs.Prelude.{◌≡◌, List, ℕ, ◌*◌, ◌/◌, ◌%◌, ◌≤◌, ◌<◌};
ghost use Rattle.semantics.specs.Models.{Program, Question};
ghost use Rattle.strike_calls.specs.Choices.{Decided};
ghost use Rattle.tally.specs.Ones.{ones};
ghost use Rattle.tally.specs.Tallying.{Tallied, Tallies};

use rows::Refusal;
use strike_calls::Choices;
use strike_table::Table;

// How many choices are reached and how many unreached, and the reached share in whole hundredths with its remainder.
#[derive(Clone, Copy)]
pub struct Count {
    pub reached: u32,
    pub unreached: u32,
    pub share: u32,
    pub remainder: u32,
}

// How many choices of the table are reached.
fn reached(t: Table) -> u32
    requires { t.total ≤ 1024 }
    ensures { result ≡ ones t.said t.total }
{
    let said = &t.said[..t.total];
    said.iter().filter(|v| v.unwrap_or(false)).count() as u32
}

// The share of a count in whole hundredths.
fn hundredths(reached: u32, total: u32) -> u32
    requires { (reached ≤ 1024) × (0 < total) }
    ensures { result ≡ 100 * reached / total }
{
    100 * reached / total
}

// What remains of a count behind its whole hundredths.
fn rest(reached: u32, total: u32) -> u32
    requires { (reached ≤ 1024) × (0 < total) }
    ensures { result ≡ 100 * reached % total }
{
    100 * reached % total
}

// The counts of the table, and the share.
fn conclude(c: Choices) -> Count
    requires { (c.table.total ≤ 1024) × (0 < c.table.total) }
    ensures { (P : Program) (Q : Question) (L : List ℕ) → Decided P Q L c → Tallied P Q L result }
{
    let reached = reached(c.table);
    let total = c.table.total as u32;
    Count {
        reached,
        unreached: total - reached,
        share: hundredths(reached, total),
        remainder: rest(reached, total),
    }
}

// Reads a text and a list of lines, and counts the choices; a refusal of the text or of the list leaves the work area as it is.
pub fn tally(text: &[u8], list: &[u32], work: &mut [u8]) -> Result<Count, Refusal>
    ensures { Tallies text.now list.now work.old result work.new }
{
    let choices = strike_calls::decide(text, list, work)?;
    Ok(conclude(choices))
}
