// A shortest way from a found state to the empty one, which has no slot: by the nearest slot from where a line empties the object.
#![tactic(auto)]

ghost use Rattle.std.specs.Prelude.{◌≤◌, ◌<◌, length};
ghost use Rattle.semantics.specs.Facts.{state};
ghost use Rattle.model.specs.Records.{program_of};
ghost use Rattle.model.specs.WellFormed.{WellFormed};
ghost use Rattle.search_states.specs.States.{row, Proper};
ghost use Rattle.search_ways.specs.Moves.{Marks, CanTake};
ghost use Rattle.shortest_empty.specs.Emptying.{Emptier, WayBetween, Approach, Nearest, ToEmpty, Mapped};

use facts_bits::WIDTH;
use limits::ATOMIC;
use model::Model;
use search_states::States;
use search_ways::Moves;

// The line of the first clause that takes an object of the state of slot u to the empty state.
// The model, the states and the moves stay apart, with what they are to one another in clauses, as at `search_ways::way`.
fn emptier(m: Model, s: States, moves: &Moves, u: usize) -> Option<u32>
    requires { WellFormed m × Proper s × Marks moves.now.table (CanTake m s) × (u < s.count) }
    ensures { Emptier (program_of m) (row s) u result }
{
    search_ways::line_between(m, &moves.table, u, s.states[u], 0)
}

// The lines of a shortest way from one slot to another, and how many they are, if there is a way.
// What is lent stays apart, as at `emptier`. That a slot is one of the states stays a clause: a type with that bound would be made of a number by this very clause, to be taken apart for an index.
pub fn between(
    m: Model,
    s: States,
    moves: &Moves,
    from: usize,
    to: usize,
    out: &mut [u32],
) -> Option<usize>
    requires { Mapped m s moves.now.table moves.now.steps moves.now.ways × (from < s.count) × (to < s.count) × (s.count ≤ length out.old) }
    ensures { WayBetween (program_of m) (row s) from to out.old out.new result }
{
    if !facts_bits::get(&moves.ways, from * WIDTH + to) {
        return None;
    }
    Some(search_ways::way(m, s, &moves.table, &moves.steps, from, to, out))
}

// The fewest steps from one slot to another from where a line empties the object, if there is such a way.
fn approach(m: Model, s: States, moves: &Moves, from: usize, to: usize) -> Option<usize>
    requires { Mapped m s moves.now.table moves.now.steps moves.now.ways × (from < s.count) × (to < s.count) }
    ensures { Approach (program_of m) (row s) from to result }
{
    emptier(m, s, moves, to)?;
    let mut lines = [0; ATOMIC];
    between(m, s, moves, from, to, &mut lines)
}

// The slot nearest to the given one from where a line empties the object.
// The loop stays beside `filter_map` and `min_by_key`: that no slot is left out, `filter_map` says only of a function that gives each slot its steps, and `approach` promises the steps without such a function.
fn nearest(m: Model, s: States, moves: &Moves, from: usize) -> Option<usize>
    requires { Mapped m s moves.now.table moves.now.steps moves.now.ways × (from < s.count) }
    ensures { Nearest (program_of m) (row s) from result }
{
    let mut near = None;
    let mut fewest = s.count;
    for u in 0..s.count {
        if let Some(steps) = approach(m, s, moves, from, u) {
            if steps < fewest {
                fewest = steps;
                near = Some(u);
            }
        }
    }
    near
}

// The lines of a shortest way from a slot to the empty state, and how many they are, if there is a way.
pub fn way(m: Model, s: States, moves: &Moves, from: usize, out: &mut [u32]) -> Option<usize>
    requires { Mapped m s moves.now.table moves.now.steps moves.now.ways × (from < s.count) × (s.count ≤ length out.old) }
    ensures { ToEmpty (program_of m) (row s) (state (row s) from) out.old out.new result }
{
    let u = nearest(m, s, moves, from)?;
    let k = search_ways::way(m, s, &moves.table, &moves.steps, from, u, out);
    out[k] = emptier(m, s, moves, u).unwrap();
    Some(k + 1)
}
