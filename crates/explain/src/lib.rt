// A run put to a text, and why it breaks where it does.
#![tactic(auto)]

ghost use Rattle.std.specs.Prelude.{◌≡◌, [], ◌≤◌, ◌<◌, length};
ghost use Rattle.std.proofs.Math.Option.{some};
ghost use Rattle.limits.specs.Limits as limit;
ghost use Rattle.semantics.specs.Runs as runs;
ghost use Rattle.semantics.specs.Runs.{start};
ghost use Rattle.model.specs.Records.{program_of, question_of};
ghost use Rattle.model.specs.Places.{place_of};
ghost use Rattle.model.specs.WellFormed.{WellFormed};
ghost use Rattle.facts_heads.specs.Heads.{room};
ghost use Rattle.calls.specs.Wiping.{wiped};
ghost use Rattle.replay_session.specs.declared.Answer.TheVariants.{Broken as BrokenAt};
ghost use Rattle.replay_session.specs.Records.{Fits};
ghost use Rattle.replay_session.specs.Replays.{Replays};
ghost use Rattle.replay_session.specs.Notes.{Notes};
ghost use Rattle.replay_runs.specs.Endings.{Stopped, Ends};
ghost use Rattle.replay.specs.Replies.{run_outcome};
ghost use Rattle.reasons.specs.Reasons.{Explains};
ghost use Rattle.explain.specs.Explains.{Reasoned, Tells, Told, Explained};

use facts_heads::ROOM;
use limits::RUN;
use model::Model;
use reasons::Reason;
use replay_runs::Ended;
use replay_session::{Answer, Session};
use rows::Refusal;

// What is said of a run: that it is kept, or that it is broken at a place, and why.
// It stays an enum: a broken run is what is said and no failure of the call.
#[derive(Clone, Copy)]
pub enum Explanation {
    Kept,
    Broken { place: usize, reason: Reason },
}

// Why a place is not allowed in a state that fits.
// `WellFormed m` stays a clause: a record is blank before a text is read into it, which is not well formed, and a second type around a well-formed record would be opened wherever a field of it is read; the lengths of `run` and `work` stay clauses too, since C lends a run that may be shorter, and `replay_runs` takes any area of at least so many bytes.
fn why(m: Model, s: Session, n: u32, work: &mut [u8]) -> Reason
    requires { WellFormed m × Fits m s × (s.kept < limit.run) × (room ≤ length work.old) }
    ensures { ((p : runs.Place) → place_of n ≡ some p → Explains m s p result) × (length work.new ≡ length work.old) }
{
    let v = replay_runs::sight(m, s, n, work);
    reasons::why_place(&m, &v.slots, work, s.position(), n)
}

// Why a run breaks at a place, in the state to which the places before it lead.
// The model, the run and the work area stay apart: `play_run` before and `why` behind take them one by one, so that a struct of them would be made in `explain_run` for two functions alone.
fn why_broken(m: Model, s: Session, place: usize, run: &[u32], work: &mut [u8]) -> Reason
    requires { WellFormed m × (length run.now ≤ limit.run) × (room ≤ length work.old) × Replays (program_of m) (question_of m) (start []) run.now 0 (BrokenAt place) × Stopped m run.now place s }
    ensures { Reasoned (program_of m) (question_of m) run.now place result × (length work.new ≡ length work.old) }
{
    let Some(&n) = run.get(place) else {
        return Reason::Ends;
    };
    why(m, s, n, work)
}

// Explains how a run ended.
fn tell(m: Model, ending: Ended<Answer>, run: &[u32], work: &mut [u8]) -> Explanation
    requires { WellFormed m × (length run.now ≤ limit.run) × (room ≤ length work.old) × Replays (program_of m) (question_of m) (start []) run.now 0 ending.answer × Ends m run.now ending.answer ending.session }
    ensures { Tells (program_of m) (question_of m) run.now ending.answer result × (length work.new ≡ length work.old) }
{
    match ending.answer {
        Answer::Kept => Explanation::Kept,
        Answer::Broken { place } => {
            let session = ending.session;
            let reason = why_broken(m, session, place, run, work);
            Explanation::Broken { place, reason }
        }
    }
}

// Replays a run over a model and explains the answer, and notes who stood by.
// The run and the two buffers stay apart: `play_run` takes both and `tell` one of them, so that a struct of them would be taken apart here.
fn explain_run(m: Model, run: &[u32], work: &mut [u8], stood: &mut [u32]) -> Explanation
    requires { WellFormed m × (length run.now ≤ limit.run) × (room ≤ length work.old) × (limit.run ≤ length stood.old) }
    ensures { Told (program_of m) (question_of m) run.now result × Notes (program_of m) (question_of m) (start []) run.now stood.old stood.new × (length work.new ≡ length work.old) }
{
    let ending = replay_runs::play_run(m, run, work, stood);
    tell(m, ending, run, work)
}

// The same, and leaves the work bytes zero.
fn explain_model(m: Model, run: &[u32], work: &mut [u8], stood: &mut [u32]) -> Explanation
    requires { WellFormed m × (length run.now ≤ limit.run) × (limit.work ≤ length work.old) × (limit.run ≤ length stood.old) }
    ensures { Told (program_of m) (question_of m) run.now result × Notes (program_of m) (question_of m) (start []) run.now stood.old stood.new × (work.new ≡ wiped work.old) }
{
    let mut facts = [0u8; ROOM];
    let explanation = explain_run(m, run, &mut facts, stood);
    calls::wipe(work);
    explanation
}

// Replays a run over a text and explains the answer, and notes in the table who stood by at each kept step.
pub fn explain(
    text: &[u8],
    run: &[u32],
    work: &mut [u8],
    stood: &mut [u32],
) -> Result<Explanation, Refusal>
    ensures { Explained (run_outcome text.now run.now work.old stood.old) run.now work.old stood.old result work.new stood.new }
{
    let short = calls::short(work.len(), stood.len());
    let m = text::accept(text, short, run.len() > RUN)?;
    Ok(explain_model(m, run, work, stood))
}
