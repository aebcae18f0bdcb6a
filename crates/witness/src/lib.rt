// The run of a reached question, out of what the search recorded.
#![tactic(auto)]

ghost use Rattle.std.specs.Prelude.{ℕ, ◌≤◌, length};
ghost use Rattle.limits.specs.Limits as limit;
ghost use Rattle.witness_walk.specs.Walk.{Recorded, Sits};
ghost use Rattle.witness.specs.Witness.{Shown};

use model::Model;
use search_levels::{LEVELS, Pair};
use search_states::States;
use search_ways::Moves;
use witness_meetings::Cast;

// The pair to which the carried objects walk: the first of level k, in the first row that has one.
pub fn goal(rows: &[u8; LEVELS], k: usize) -> Pair
    requires { (k ≤ limit.stages) × ((e f : ℕ) × Sits rows.now k e f) }
    ensures { Sits rows.now k result.first result.second }
{
    search_levels::first_pair(rows, k).unwrap()
}

// Writes a run into the table: one object of each state is made, and the carried objects walk to a pair of the last level. Returns how many places it has.
pub fn witness(
    run: &mut [u32],
    work: &[u8],
    m: Model,
    s: States,
    rows: &[u8; LEVELS],
    moves: &Moves,
) -> usize
    requires { Recorded m work.now s rows.now moves.now.table moves.now.steps moves.now.ways × ((e f : ℕ) × Sits rows.now m.stagecount e f) × (limit.run ≤ length run.old) }
    ensures { Shown m run.old run.new result }
{
    let slots = facts_candidates::slots();
    let pair = goal(rows, m.stagecount);
    let n = s.count as u32;
    let cast = Cast {
        base: 0,
        first: n,
        second: n + 1,
    };
    let from = witness_walk::walk(run, work, &slots, m, s, rows, moves, cast, 0, pair);
    let r = witness_lineage::build(run, m, s, 0, from.at);
    run[..r].reverse();
    r
}
