// What a hand-in is worth over an accepted model.
#![tactic(auto)]

ghost use Rattle.std.specs.Prelude.{◌≡◌, List, [], ◌+◌, ◌≤◌, ◌<◌, length};
ghost use Rattle.limits.specs.Limits as limit;
ghost use Rattle.semantics.specs.Runs.{Place, start};
ghost use Rattle.model.specs.Records.{program_of, question_of};
ghost use Rattle.model.specs.WellFormed.{WellFormed};
ghost use Rattle.calls.specs.Wiping.{wiped};
ghost use Rattle.handin.specs.Handins.{says-no, says-yes};
ghost use Rattle.replay_session.specs.Replays.{Decodes};
ghost use Rattle.replay_session.specs.Notes.{Notes};
ghost use Rattle.marker_worth.specs.Worth.{BreaksAt, Worth};
ghost use Rattle.marker_worth.specs.Judging.{Judged};

use calls::CROWDED;
use facts_heads::ROOM;
use model::Model;
use replay_session::Answer;
use rows::Refusal;

// The hand-in is unreadable at a line; it is right; the verdict is the other one; its run breaks at a place, which stands on a line of the hand-in.
// It stays an enum: an unreadable hand-in is a mark and no failure of the call.
#[derive(Clone, Copy)]
pub enum Mark {
    Unreadable { line: u32 },
    Right,
    Other { reached: bool },
    Breaks { place: usize, line: u32 },
}

// The mark by the verdict of a well-formed model, or the refusal where too many states are reachable for one; the search has a table of its own, and the work bytes are left zero.
// `WellFormed m` stays a clause: a record is blank before a text is read into it, which is not well formed, and a second type around a well-formed record would be opened wherever a field of it is read; the length of `work` stays one too, since C lends an area that may be longer.
fn judge(m: Model, reached: Mark, unreached: Mark, work: &mut [u8]) -> Result<Mark, Refusal>
    requires { WellFormed m × (limit.work ≤ length work.old) }
    ensures { Judged (program_of m) (question_of m) reached unreached result × (work.new ≡ wiped work.old) }
{
    let mut table = [0u8; ROOM];
    calls::wipe(work);
    let found = search::search(&mut table, m).ok_or(CROWDED)?;
    if found.reached {
        return Ok(reached);
    }
    Ok(unreached)
}

// The mark of a no.
pub fn mark_no(m: Model, work: &mut [u8]) -> Result<Mark, Refusal>
    requires { WellFormed m × (limit.work ≤ length work.old) }
    ensures { Worth (program_of m) (question_of m) says-no result × (work.new ≡ wiped work.old) }
{
    judge(m, Mark::Other { reached: true }, Mark::Right, work)
}

// The mark of a run that breaks at a place.
fn mark_broken(m: Model, first: u32, place: usize, work: &mut [u8]) -> Result<Mark, Refusal>
    requires { WellFormed m × (first + place < 4294967296) × (limit.work ≤ length work.old) }
    ensures { ((ps : List Place) → BreaksAt (program_of m) (question_of m) (start []) ps place → Worth (program_of m) (question_of m) (says-yes first ps) result) × (work.new ≡ wiped work.old) }
{
    let line = first + place as u32;
    judge(
        m,
        Mark::Breaks { place, line },
        Mark::Other { reached: false },
        work,
    )
}

// The mark of a yes with a run, whose first place stands on line `first` of the hand-in; who stood by at each kept step is noted.
pub fn mark_run(
    m: Model,
    first: u32,
    run: &[u32],
    work: &mut [u8],
    stood: &mut [u32],
) -> Result<Mark, Refusal>
    requires { WellFormed m × (first + length run.now < 4294967296) × (length run.now ≤ limit.run) × (limit.work ≤ length work.old) × (limit.run ≤ length stood.old) }
    ensures { ((ps : List Place) → Decodes run.now ps → Worth (program_of m) (question_of m) (says-yes first ps) result) × Notes (program_of m) (question_of m) (start []) run.now stood.old stood.new × (work.new ≡ wiped work.old) }
{
    match replay_runs::replay_model(m, run, work, stood) {
        Answer::Kept => Ok(Mark::Right),
        Answer::Broken { place } => mark_broken(m, first, place, work),
    }
}
