// The replay over a text: a whole run, and one place put to a state by value.
#![tactic(auto)]

ghost use Rattle.std.specs.Prelude.{MatchResult, Ok, Err};
ghost use Rattle.replay.specs.Replies.{run_outcome, Replayed, place_outcome, Put};

use limits::{RUN, WORK};
use replay_runs::Ended;
use replay_session::{Answer, PlaceAnswer, Session};
use rows::Refusal;

// Replays a run over a text, and notes in the table who stood by at each kept step.
pub fn replay(
    text: &[u8],
    run: &[u32],
    work: &mut [u8],
    table: &mut [u32],
) -> Result<Answer, Refusal>
    ensures { Replayed (run_outcome text.now run.now work.old table.old) run.now work.old table.old result work.new table.new }
{
    let short = calls::short(work.len(), table.len());
    let m = text::accept(text, short, run.len() > RUN)?;
    Ok(replay_runs::replay_model(m, run, work, table))
}

// Puts one place to a state over a text; a refusal leaves the state.
pub fn place(
    text: &[u8],
    s: Session,
    n: u32,
    work: &mut [u8],
) -> Result<Ended<PlaceAnswer>, Refusal>
    ensures { MatchResult result (λ r. Put (place_outcome text.now s work.old) s n work.old (Ok r.answer) r.session work.new) (λ x. Put (place_outcome text.now s work.old) s n work.old (Err x) s work.new) }
{
    let m = text::accept(text, work.len() < WORK, s.kept == RUN)?;
    Ok(replay_runs::place_model(m, s, n, work))
}
