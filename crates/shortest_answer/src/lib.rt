// The shortest way between two states of an accepted model.
#![tactic(auto)]

ghost use Rattle.std.specs.Prelude.{◌≡◌, ◌↔◌, ◌≢◌, true, List, ℕ, ◌≤◌, length};
ghost use Rattle.limits.specs.Limits as limit;
ghost use Rattle.model.specs.Records.{program_of};
ghost use Rattle.model.specs.WellFormed.{WellFormed};
ghost use Rattle.search_states.specs.States.{row, Known, Proper};
ghost use Rattle.search.specs.Search.{Explores};
ghost use Rattle.shortest_empty.specs.Emptying.{Mapped};
ghost use Rattle.shortest_answer.specs.Answering.{Answered, Finds};
ghost use Rattle.shortest_answer.specs.Ending.{Ended};

use calls::CROWDED;
use facts_heads::ROOM;
use model::Model;
use rows::{Refusal, Row};
use search::Explored;
use search_states::States;
use search_ways::Moves;

// Is the state found?
fn known(s: States, state: u32) -> bool
    requires { Proper s }
    ensures { (result ≡ true) ↔ Known s state }
{
    if state == 0 {
        return s.empty;
    }
    s.row().contains(&state)
}

// A shortest way from one found state to another one; from the empty state there is none.
// The two states stay beside the model and the row, since C gives them apart.
fn onward(m: Model, s: States, moves: &Moves, from: u32, to: u32, run: &mut [u32]) -> Option<usize>
    requires { Mapped m s moves.now.table moves.now.steps moves.now.ways × Known s from × Known s to × (from ≢ to) × (s.count ≤ length run.old) }
    ensures { Ended (program_of m) (row s) from to run.old run.new result }
{
    if from == 0 {
        return None;
    }
    let e = search_states::seek(s.row(), from).unwrap();
    if to == 0 {
        return shortest_empty::way(m, s, moves, e, run);
    }
    let u = search_states::seek(s.row(), to).unwrap();
    shortest_empty::between(m, s, moves, e, u, run)
}

// The answer that the explored states give.
fn find(
    m: Model,
    explored: Option<Explored>,
    from: u32,
    to: u32,
    run: &mut [u32],
) -> Result<Option<usize>, Refusal>
    requires { WellFormed m × ((w : List ℕ) × Explores m w explored) × (limit.run ≤ length run.old) }
    ensures { Answered (program_of m) from to run.old run.new result }
{
    let found = explored.ok_or(CROWDED)?;
    let s = found.states;
    if !known(s, from) || !known(s, to) {
        return Err(Row::Unreachable.refusal());
    }
    if from == to {
        return Ok(Some(0));
    }
    Ok(onward(m, s, &found.moves, from, to, run))
}

// Explores a well-formed model, writes a shortest way where there is one and says how many steps it has, and leaves the work bytes zero.
pub fn decide(
    m: Model,
    from: u32,
    to: u32,
    work: &mut [u8],
    run: &mut [u32],
) -> Result<Option<usize>, Refusal>
    requires { WellFormed m × (limit.work ≤ length work.old) × (limit.run ≤ length run.old) }
    ensures { Finds (program_of m) from to work.old run.old result work.new run.new }
{
    let mut facts = [0u8; ROOM];
    let explored = search::explore(&mut facts, m);
    let answer = find(m, explored, from, to, run);
    calls::wipe(work);
    answer
}
