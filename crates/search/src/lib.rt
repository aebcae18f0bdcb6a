// The search: the reachable states of a model, their moves, the levels of its question, and the verdict; or that more states are reachable than it has room for.
#![tactic(auto)]

ghost use Rattle.std.specs.Prelude.{◌≡◌, ◌≤◌, ◌<◌, length, IfSome};
ghost use Rattle.semantics.specs.Walkers.{Whole};
ghost use Rattle.model.specs.Records.{program_of, stage_at};
ghost use Rattle.model.specs.WellFormed.{WellFormed};
ghost use Rattle.facts_heads.specs.Heads.{room};
ghost use Rattle.search_states.specs.States.{row};
ghost use Rattle.search_ways.specs.Moves.{Exactly};
ghost use Rattle.search_reachable.specs.Reachable.{Reaches};
ghost use Rattle.search.specs.Search.{Moving, Surveyed, Explores, Judged, Finds, FindsFrom};

use facts_bits::BYTES;
use model::Model;
use search_levels::Levels;
use search_states::{Listing, States};
use search_ways::Moves;

// The reachable states in order of discovery and by rising number, and their moves.
#[derive(Clone, Copy)]
pub struct Explored {
    pub states: States,
    pub listing: Listing,
    pub moves: Moves,
}

// What is explored, the levels of the question, and whether it is reached.
// The flag stays in place of the pair that was found: `witness` and `witness_from`, which may ask nothing more of their callers, seek the pair themselves, so that nobody would read it here.
#[derive(Clone, Copy)]
pub struct Found {
    pub explored: Explored,
    pub levels: Levels,
    pub reached: bool,
}

// The moves over the found states.
// That the model is well formed stays a clause: a record is blank before a text is read into it, which is not well formed, and a second type around a well-formed record would be opened wherever a field of it is read.
fn tables(work: &[u8], m: Model, s: States) -> Moves
    requires { WellFormed m × (room ≤ length work.now) × Exactly m work.now s × Whole (program_of m) (row s) }
    ensures { Moving m s result }
{
    let table = search_ways::takes(work, m);
    let steps = search_ways::steps(m, s, &table);
    let mut ways = steps;
    search_ways::close(&mut ways, s.count);
    Moves { table, steps, ways }
}

// The listing and the moves of the reachable states.
fn surveyed(work: &[u8], m: Model, states: States) -> Explored
    requires { WellFormed m × (room ≤ length work.now) × Reaches m work.now states }
    ensures { Surveyed m work.now result }
{
    let listing = search_states::rising(states);
    let moves = tables(work, m, states);
    Explored {
        states,
        listing,
        moves,
    }
}

// Explores a well-formed model; it always ends, with all the reachable states and their moves, or with none of them where there are too many states. `work` is a table for the facts that the caller has of its own: it is larger than the work area that an analysis is lent.
// The room for facts stays a clause: an array type would ask more of callers than so many bytes at least.
pub fn explore(work: &mut [u8], m: Model) -> Option<Explored>
    requires { WellFormed m × (room ≤ length work.old) }
    ensures { Explores m work.new result × (length work.new ≡ length work.old) }
{
    let states = search_reachable::reachable(work, m).ok()?;
    Some(surveyed(work, m, states))
}

// The levels over the reachable states, where p is a row in which stage 1 asks besides for the slot of its first variable, or nothing, and whether the last one has a pair.
fn judged(work: &[u8], m: Model, explored: Explored, p: Option<[u8; BYTES]>) -> Found
    requires { WellFormed m × Surveyed m work.now explored × IfSome p (λ among. 0 < (stage_at m 0).variables) }
    ensures { Judged m work.now explored p result }
{
    let moves = &explored.moves;
    let levels = search_levels::fill(work, m, explored.states, &moves.ways, p);
    let reached = search_levels::first_pair(&levels.rows, m.stagecount).is_some();
    Found {
        explored,
        levels,
        reached,
    }
}

// Searches a well-formed model; it always ends, with a verdict, or with none where there are too many states. `work` is as for exploring.
pub fn search(work: &mut [u8], m: Model) -> Option<Found>
    requires { WellFormed m × (room ≤ length work.old) }
    ensures { Finds m work.new result × (length work.new ≡ length work.old) }
{
    let explored = explore(work, m)?;
    Some(judged(work, m, explored, None))
}

// The same question with an object of the given state for the first variable of stage 1, from wherever places that were kept have led; stage 1 has a variable.
pub fn search_from(work: &mut [u8], m: Model, state: u32) -> Option<Found>
    requires { WellFormed m × (room ≤ length work.old) × (0 < (stage_at m 0).variables) }
    ensures { FindsFrom m state work.new result × (length work.new ≡ length work.old) }
{
    let explored = explore(work, m)?;
    let moves = &explored.moves;
    let among = search_levels::aim(explored.states, &moves.ways, state);
    Some(judged(work, m, explored, Some(among)))
}
