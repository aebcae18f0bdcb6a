// The analysis of an accepted model: the verdict with the run of a reached question, and the reachable states; or that too many are reachable.
#![tactic(auto)]

ghost use Rattle.std.specs.Prelude.{◌≡◌, ◌≤◌, length};
ghost use Rattle.limits.specs.Limits as limit;
ghost use Rattle.model.specs.Records.{program_of, question_of};
ghost use Rattle.model.specs.WellFormed.{WellFormed};
ghost use Rattle.search.specs.Search.{Searched, Finds};
ghost use Rattle.analyzer_verdict.specs.Judging.{Answered, Beside, refusal, answer_beside, Judges};

use calls::CROWDED;
use facts_heads::ROOM;
use limits::LISTED;
use model::{Model, Place};
use search::Found;
use search_states::Listing;

// Reached with the number of places of the shown run and its last place, unreached, or a refusal with its number and line.
// The three cases stay an enum: document 01 writes it so.
#[derive(Clone, Copy)]
pub enum Answer {
    Reached { places: usize, last: Place },
    Unreached,
    // The number stays in place of the row, for the same reason.
    Refused { number: u32, line: u32 },
}

// An answer, and beside a verdict the reachable atomic states by rising number, the empty one first, and how many they are.
// The count stays beside the array: memory is fixed, and C lends cells for the whole row.
#[derive(Clone, Copy)]
pub struct Analysis {
    pub answer: Answer,
    pub states: [u32; LISTED],
    pub count: usize,
}

// A refusal, with no states beside it.
pub fn refuse(number: u32, line: u32) -> Analysis
    ensures { result ≡ refusal number line }
{
    Analysis {
        answer: Answer::Refused { number, line },
        states: [0u32; LISTED],
        count: 0,
    }
}

// An answer, with the listed states beside it.
pub fn with_states(answer: Answer, listing: Listing) -> Analysis
    ensures { result ≡ answer_beside answer listing }
{
    let states = listing.states;
    Analysis {
        answer,
        states,
        count: listing.count,
    }
}

// The verdict that a search gives; the run of a reached question is written.
// `WellFormed m` stays a clause: a record is blank before a text is read into it, which is not well formed, and a second type around a well-formed record would be opened wherever a field of it is read; the length of `run` stays one too, since C lends a row that may be longer.
fn conclude(m: Model, facts: &[u8], run: &mut [u32], found: Found) -> Answer
    requires { WellFormed m × Searched m facts.now found × (limit.run ≤ length run.old) }
    ensures { Answered (program_of m) (question_of m) run.old run.new result }
{
    if !found.reached {
        return Answer::Unreached;
    }
    let places = witness::witness(
        run,
        facts,
        m,
        found.explored.states,
        &found.levels.rows,
        &found.explored.moves,
    );
    let last = model::place_of(run[places - 1]);
    Answer::Reached { places, last }
}

// The analysis that a search gives: too many states, or the verdict with the states beside it.
// It and `conclude` stay beside `ask` and `conclude` of `from_here_verdict`: one pair for both would take the writing of the run as a closure, and could promise of the run no more than the closure does, so that each crate would draw its own promise from that anew.
// The refusal stays an answer and no `Err`, as at `ask` there.
fn judge(m: Model, facts: &[u8], run: &mut [u32], searched: Option<Found>) -> Analysis
    requires { WellFormed m × Finds m facts.now searched × (limit.run ≤ length run.old) }
    ensures { Answered (program_of m) (question_of m) run.old run.new result.answer × Beside (program_of m) result.states result.count result.answer }
{
    let Some(found) = searched else {
        return refuse(CROWDED.row.number(), CROWDED.line);
    };
    let answer = conclude(m, facts, run, found);
    with_states(answer, found.explored.listing)
}

// Searches a well-formed model, writes the run of a reached question, and leaves the work bytes zero.
pub fn decide(m: Model, work: &mut [u8], run: &mut [u32]) -> Analysis
    requires { WellFormed m × (limit.work ≤ length work.old) × (limit.run ≤ length run.old) }
    ensures { Judges (program_of m) (question_of m) work.old run.old result work.new run.new }
{
    let mut facts = [0u8; ROOM];
    let searched = search::search(&mut facts, m);
    let analysis = judge(m, &facts, run, searched);
    calls::wipe(work);
    analysis
}
