// What every call over a text does: the refusals that come before the text's lines are read, and the work bytes left zero.
#![tactic(auto)]

ghost use Rattle.std.specs.Prelude.{◌≡◌, ◌≤◌, length, MatchResult};
ghost use Rattle.limits.specs.Limits as limit;
ghost use Rattle.calls.specs.Calls.{early as early_row, short as too_short};
ghost use Rattle.calls.specs.Wiping.{wiped};
ghost use Rattle.rows.specs.Rows.{number_of};

use limits::{RUN, TEXT, WORK};
use rows::{Refusal, Row};

// The refusal where more than 127 non-empty states are reachable.
pub const CROWDED: Refusal = Refusal {
    row: Row::States,
    line: 0,
};

// Is a call refused before its lines are read? By the text's bytes, a lent buffer that is too short, a run that is too long.
pub fn early(bytes: usize, short: bool, long: bool) -> Result<(), Refusal>
    ensures { MatchResult result (λ _. early_row bytes short long ≡ 0) (λ r. (number_of r.row ≡ early_row bytes short long) × (r.line ≡ 0)) }
{
    if bytes == 0 || bytes > TEXT {
        return Err(Row::Size.refusal());
    }
    if short {
        return Err(Row::Lent.refusal());
    }
    if long {
        return Err(Row::Length.refusal());
    }
    Ok(())
}

// Is the work area too short, or a table of places lent for writing?
pub fn short(bytes: usize, places: usize) -> bool
    ensures { result ≡ too_short bytes places }
{
    bytes < WORK || places < RUN
}

// Sets the work bytes to zero.
// The line stays a function: how much of the lent bytes a call works in belongs here, so that those who decide and replay name no number for it.
// The table of facts, the deciding, this call and the answer stay four lines in five callers: a function over a closure would have the table's room, which `facts_heads` counts from the layout above this crate, and the closure's `pre` and `post` in its contract, and the four callers that lend no table or decide after this call would stay beside it.
pub fn wipe(work: &mut [u8])
    requires { limit.work ≤ length work.old }
    ensures { work.new ≡ wiped work.old }
{
    work[..WORK].fill(0);
}
