// What can still become of an object, over an accepted model: the question put anew from where places lead, with that object for the first variable of stage 1.
#![tactic(auto)]

ghost use Rattle.std.specs.Prelude.{◌≡◌, true, ◌≤◌, length};
ghost use Rattle.limits.specs.Limits as limit;
ghost use Rattle.model.specs.Records.{program_of, question_of};
ghost use Rattle.model.specs.WellFormed.{WellFormed};
ghost use Rattle.replay_session.specs.Sessions.{state_in};
ghost use Rattle.search.specs.Search.{SearchedFrom};
ghost use Rattle.witness_from.specs.From.{ShownFrom};
ghost use Rattle.from_here_verdict.specs.From.{Put, Judges};
ghost use Rattle.from_here_verdict.specs.Standing.{Ready, there, Concluded, Told};

use analyzer_verdict::{Analysis, Answer};
use calls::CROWDED;
use facts_heads::ROOM;
use limits::EARLIER;
use model::Model;
use replay_session::Session;
use rows::Row;
use search::Found;

// Writes the run of a reached question. Returns how many places it has.
// `Ready m s object` stays a clause and its three parameters stay apart, since the search asks for the model and one state alone and a record would be taken apart for it; the length of `run` stays a clause, since C lends a row that may be longer.
fn show(m: Model, s: Session, object: u32, facts: &[u8], run: &mut [u32], found: Found) -> usize
    requires { Ready m s object × SearchedFrom m (state_in s object) facts.now found × (found.reached ≡ true) × (limit.run ≤ length run.old) }
    ensures { ShownFrom m (there m s) object run.old run.new result }
{
    let states = found.explored.states;
    let slot = search_states::seek(states.row(), s.states[object as usize]).unwrap();
    witness_from::witness_from(
        run,
        facts,
        m,
        states,
        &found.levels.rows,
        &found.explored.moves,
        s.objects as u32,
        object,
        slot,
    )
}

// The verdict that a search gives; the run of a reached question is written.
fn conclude(
    m: Model,
    s: Session,
    object: u32,
    facts: &[u8],
    run: &mut [u32],
    found: Found,
) -> Answer
    requires { Ready m s object × SearchedFrom m (state_in s object) facts.now found × (limit.run ≤ length run.old) }
    ensures { Concluded m s object run.old run.new result }
{
    if !found.reached {
        return Answer::Unreached;
    }
    let places = show(m, s, object, facts, run, found);
    let last = model::place_of(run[places - 1]);
    Answer::Reached { places, last }
}

// The answer about an object that was created: too many states, or the verdict with the states beside it.
// The refusals stay answers and no `Err`, here and in `judge`: document 01 has a refusal as a case of the answer, and with a `Result` inside, `Put` and `Told` would be said of both.
// It and `conclude` stay beside `judge` and `conclude` of `analyzer_verdict`, for the reason there.
fn ask(m: Model, s: Session, object: u32, run: &mut [u32]) -> Analysis
    requires { Ready m s object × (limit.run ≤ length run.old) }
    ensures { Told m s object run.old result run.new }
{
    let mut facts = [0u8; ROOM];
    let state = s.states[object as usize];
    let Some(found) = search::search_from(&mut facts, m, state) else {
        return analyzer_verdict::refuse(CROWDED.row.number(), CROWDED.line);
    };
    let answer = conclude(m, s, object, &facts, run, found);
    analyzer_verdict::with_states(answer, found.explored.listing)
}

// The answer about an object after the places, with the refusals that come before the states are counted.
fn judge(m: Model, places: &[u32], object: u32, run: &mut [u32]) -> Analysis
    requires { WellFormed m × (length places.now ≤ limit.run) × (limit.run ≤ length run.old) }
    ensures { Put run.old result run.new (program_of m) (question_of m) places.now object }
{
    let Some(s) = from_here_places::stand(m, places) else {
        return analyzer_verdict::refuse(Row::Place.number(), 0);
    };
    if object as usize >= s.objects {
        return analyzer_verdict::refuse(Row::Place.number(), 0);
    }
    let first = m.stages[0];
    if first.variables == 0 {
        return analyzer_verdict::refuse(Row::NoVariable.number(), 0);
    }
    if s.objects > EARLIER {
        return analyzer_verdict::refuse(Row::Objects.number(), 0);
    }
    ask(m, s, object, run)
}

// The same, and leaves the work bytes zero.
pub fn decide(m: Model, places: &[u32], object: u32, work: &mut [u8], run: &mut [u32]) -> Analysis
    requires { WellFormed m × (length places.now ≤ limit.run) × (limit.work ≤ length work.old) × (limit.run ≤ length run.old) }
    ensures { Judges (program_of m) (question_of m) places.now object work.old run.old result work.new run.new }
{
    let analysis = judge(m, places, object, run);
    calls::wipe(work);
    analysis
}
