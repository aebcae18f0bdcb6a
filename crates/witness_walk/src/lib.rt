// The walk of the carried objects along the levels, with the meetings, written from its end.
#![tactic(auto)]

ghost use Rattle.std.specs.Prelude.{◌≡◌, true, List, ℕ, suc, ◌+◌, ◌-◌, ◌*◌, ◌≤◌, ◌<◌, length, MatchOption};
ghost use Rattle.limits.specs.Limits as limit;
ghost use Rattle.semantics.specs.Building.{places, with};
ghost use Rattle.model.specs.Records.{program_of};
ghost use Rattle.model.specs.WellFormed.{WellFormed};
ghost use Rattle.facts_bits.specs.Width as width;
ghost use Rattle.facts_candidates.specs.Choices.{Own};
ghost use Rattle.search_states.specs.States.{Proper, Discovered};
ghost use Rattle.search_ways.specs.Shortest.{Says};
ghost use Rattle.search_levels.specs.Levels.{levels_bytes, holder, chosen, Moved};
ghost use Rattle.witness_table.specs.Runs.{AllNumerable, backwards};
ghost use Rattle.witness_meetings.specs.Meetings.{Written, Numbered};
ghost use Rattle.witness_walk.specs.Walk.{Mapped, Recorded, Ready, Errand, effort, Sits, LeadsTo, Source, Behind};

use facts_bits::WIDTH;
use limits::LISTED;
use model::{Model, Place};
use search_levels::{LEVELS, Pair};
use search_states::States;
use search_ways::{MATRIX, Moves, TABLE};
use witness_meetings::Cast;

// The slots of the carried objects on a level, and the index at which the place before is written.
#[derive(Clone, Copy)]
pub struct Stand {
    pub pair: Pair,
    pub at: usize,
}

// Does the carried variable of cell v stand in stage k, counted from 0?
// That the model is well formed stays a clause: a record is blank before a text is read into it, which is not well formed, and a second type around a well-formed record would be opened wherever a field of it is read. The model, the cell and the stage stay apart, with the ranges in clauses: the walk asks for both cells of each stage, so that a struct of the three would be made anew for each cell of each stage.
fn holds(m: Model, v: usize, k: usize) -> bool
    requires { WellFormed m × (v < limit.carried) × (k < m.stagecount) }
    ensures { result ≡ holder m v k }
{
    let number = m.carried[v];
    m.stages[k].seat(number).is_some()
}

// Does it stand in one of the first k stages?
fn carries(m: Model, v: usize, k: usize) -> bool
    requires { WellFormed m × (v < limit.carried) × (k ≤ m.stagecount) }
    ensures { result ≡ chosen m v k }
{
    (0..k).any(|i| holds(m, v, i))
}

// Writes the lines as steps of the object, the last first, from index k on. Returns the index behind them.
fn tell(run: &mut [u32], lines: &[u32], object: u32, k: usize) -> usize
    requires { AllNumerable (places (with object lines.now)) × (k + length lines.now ≤ length run.old) }
    ensures { (result ≡ k + length lines.now) × (run.new ≡ backwards run.old k (places (with object lines.now))) }
{
    // The cells stay written by their number, for the reason at `facts_bits::widen`.
    for (i, &line) in lines.iter().rev().enumerate() {
        run[k + i] = model::number_of(Place::Step { line, object });
    }
    k + lines.len()
}

// Writes a shortest way of the object from one slot to another, the last step first, from index `at` on. Returns the index behind it.
// The run, the model, the states, the table and the steps stay apart: the run is written, and each callee reads another part of the rest, a making the model and the states alone, a way the table and the steps too, a meeting the work area in place of them; the third matrix of `Moves` is not asked for.
pub fn lead(
    run: &mut [u32],
    m: Model,
    s: States,
    table: &[u8; TABLE],
    steps: &[u8; MATRIX],
    from: usize,
    to: usize,
    object: u32,
    at: usize,
) -> usize
    requires { WellFormed m × Proper s × Mapped m s table.now steps.now × Ready m s true true from to × (object < limit.objects) × (at + s.count ≤ length run.old) }
    ensures { Written (Errand m s object true true from to) (s.count - 1) run.old at run.new result }
{
    let mut lines = [0u32; LISTED];
    let n = search_ways::way(m, s, table, steps, from, to, &mut lines);
    tell(run, &lines[..n], object, at)
}

// Writes what the object of cell v does before stage k + 1 is met, the last step first, from index `at` on. Returns the index behind it.
pub fn errand(
    run: &mut [u32],
    m: Model,
    s: States,
    table: &[u8; TABLE],
    steps: &[u8; MATRIX],
    v: usize,
    k: usize,
    from: usize,
    to: usize,
    object: u32,
    at: usize,
) -> usize
    requires { WellFormed m × Proper s × Discovered (program_of m) s × Mapped m s table.now steps.now × (v < limit.carried) × (k < m.stagecount) × Ready m s (holder m v k) (chosen m v k) from to × (object < limit.objects) × (at + s.count ≤ length run.old) }
    ensures { Written (Errand m s object (holder m v k) (chosen m v k) from to) (effort s.count (holder m v k) (chosen m v k)) run.old at run.new result }
{
    if !holds(m, v, k) {
        return at;
    }
    if !carries(m, v, k) {
        return witness_lineage::make(run, m, s, to, object, at);
    }
    lead(run, m, s, table, steps, from, to, object, at)
}

// Can an object go from slot u to slot e before a stage is met?
// The flags stay: they are two facts about a variable and a stage, and no value goes with them.
fn goes(ways: &[u8; MATRIX], stands: bool, began: bool, u: usize, e: usize) -> bool
    requires { (u < limit.listed) × (e < limit.listed) }
    ensures { Says result (Moved ways.now stands began u e) }
{
    if !stands {
        return u == e;
    }
    if !began {
        return u == 0;
    }
    facts_bits::get(ways, u * WIDTH + e)
}

// The first slot of row j from which an object can go to slot e, if there is one.
fn source(
    rows: &[u8; LEVELS],
    ways: &[u8; MATRIX],
    j: usize,
    stands: bool,
    began: bool,
    e: usize,
) -> Option<usize>
    requires { (j * width.bytes + width.bytes ≤ levels_bytes) × (e < limit.listed) }
    ensures { MatchOption result ((u : ℕ) → u < limit.listed → Source rows.now ways.now j stands began e u → ⊥) (λ u. (u < limit.listed) × Source rows.now ways.now j stands began e u) }
{
    (0..LISTED).find(|u| facts_bits::get(rows, j * WIDTH + *u) && goes(ways, stands, began, *u, e))
}

// A pair of level k that leads to a pair of the next level.
// The loop stays beside `filter` and `find_map`, as in `witness_meetings::opening`.
fn previous(
    rows: &[u8; LEVELS],
    ways: &[u8; MATRIX],
    m: Model,
    k: usize,
    first: usize,
    second: usize,
) -> Pair
    requires { WellFormed m × (k < m.stagecount) × (first < limit.listed) × (second < limit.listed) × ((u v : ℕ) × LeadsTo m rows.now ways.now k first second u v) }
    ensures { LeadsTo m rows.now ways.now k first second result.first result.second }
{
    let first_stands = holds(m, 0, k);
    let second_stands = holds(m, 1, k);
    let first_began = carries(m, 0, k);
    let second_began = carries(m, 1, k);
    for v in 0..LISTED {
        if goes(ways, second_stands, second_began, v, second) {
            if let Some(u) = source(rows, ways, LISTED * k + v, first_stands, first_began, first) {
                return Pair {
                    first: u,
                    second: v,
                };
            }
        }
    }
    unreachable!()
}

// Writes the places by which the carried objects came to a pair of level k + 1 from level k, and goes back to their pair there.
fn back(
    run: &mut [u32],
    work: &[u8],
    slots: &[u8],
    m: Model,
    s: States,
    rows: &[u8; LEVELS],
    moves: &Moves,
    cast: Cast,
    k: usize,
    p: Stand,
) -> Stand
    requires { Recorded m work.now s rows.now moves.now.table moves.now.steps moves.now.ways × Own width.slots slots.now × Numbered s cast × (limit.run ≤ length run.old) × ((until : ℕ) × (run₀ : List ℕ) × (until ≤ k) × Behind m s cast until rows.now run₀ run.old (suc k) p.pair.first p.pair.second p.at) }
    ensures { (until : ℕ) (run₀ : List ℕ) → until ≤ k → Behind m s cast until rows.now run₀ run.old (suc k) p.pair.first p.pair.second p.at → Behind m s cast until rows.now run₀ run.new k result.pair.first result.pair.second result.at }
{
    let first = p.pair.first;
    let second = p.pair.second;
    let q = previous(rows, &moves.ways, m, k, first, second);
    let met = witness_meetings::meet(run, work, slots, m, s, cast, k, first, second, p.at);
    let then = errand(
        run,
        m,
        s,
        &moves.table,
        &moves.steps,
        1,
        k,
        q.second,
        second,
        cast.second,
        met,
    );
    let at = errand(
        run,
        m,
        s,
        &moves.table,
        &moves.steps,
        0,
        k,
        q.first,
        first,
        cast.first,
        then,
    );
    Stand { pair: q, at }
}

// Writes the walk from level `until` to a pair of the last level, the last place first. Returns the pair of that level, and how many places the walk has.
pub fn walk(
    run: &mut [u32],
    work: &[u8],
    slots: &[u8],
    m: Model,
    s: States,
    rows: &[u8; LEVELS],
    moves: &Moves,
    cast: Cast,
    until: usize,
    goal: Pair,
) -> Stand
    requires { Recorded m work.now s rows.now moves.now.table moves.now.steps moves.now.ways × Own width.slots slots.now × Numbered s cast × (until ≤ m.stagecount) × Sits rows.now m.stagecount goal.first goal.second × (limit.run ≤ length run.old) }
    ensures { Behind m s cast until rows.now run.old run.new until result.pair.first result.pair.second result.at }
{
    let mut p = Stand { pair: goal, at: 0 };
    for k in (until..m.stagecount).rev() {
        p = back(run, work, slots, m, s, rows, moves, cast, k, p);
    }
    p
}
