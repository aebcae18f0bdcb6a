// The run of a question asked from a database, with one of its objects for the first variable of stage 1.
#![tactic(auto)]

ghost use Rattle.std.specs.Prelude.{◌≡◌, false, ℕ, ◌+◌, ◌≤◌, ◌<◌, length};
ghost use Rattle.limits.specs.Limits as limit;
ghost use Rattle.semantics.specs.Facts.{Database, state};
ghost use Rattle.semantics.specs.Walkers.{Comes};
ghost use Rattle.model.specs.Records.{program_of, stage_at};
ghost use Rattle.model.specs.WellFormed.{WellFormed};
ghost use Rattle.facts_bits.specs.Width as width;
ghost use Rattle.facts_candidates.specs.Choices.{Own};
ghost use Rattle.search_states.specs.States.{row, Proper, Discovered};
ghost use Rattle.search_ways.specs.Moves.{Marks};
ghost use Rattle.search_ways.specs.Steps.{Between};
ghost use Rattle.search_levels.specs.Levels.{holder};
ghost use Rattle.witness_meetings.specs.Meetings.{Known, Written, Numbered, Opens};
ghost use Rattle.witness_walk.specs.Walk.{Mapped, Recorded, Ready, Sits};
ghost use Rattle.witness_from.specs.From.{ShownFrom, Openable, first_carried, cast_from, Approach, approached, Opening, opened};

use model::Model;
use search_levels::LEVELS;
use search_states::States;
use search_ways::Moves;
use witness_meetings::Cast;
use witness_walk::Stand;

// Is the first variable of stage 1 carried?
fn first_carried(m: Model) -> bool
    requires { WellFormed m }
    ensures { result ≡ first_carried m }
{
    let stage = m.stages[0];
    stage.numbers[0] == m.carried[0]
}

// The objects of a run from a database with so many objects: behind them one of each of n states, and those of the carried variables; the given object is the first of these if it is carried.
// The flag `carried` stays: no value goes with it, since the object is given in either case.
fn cast(carried: bool, existing: u32, n: usize, object: u32) -> Cast
    requires { (existing ≤ limit.earlier) × (n ≤ limit.atomic) }
    ensures { result ≡ cast_from carried existing n object }
{
    let next = existing + n as u32;
    if carried {
        return Cast {
            base: existing,
            first: object,
            second: next,
        };
    }
    Cast {
        base: existing,
        first: next,
        second: next + 1,
    }
}

// Writes how the first carried variable's object comes to the slot before stage 1 is met, if it is not there from the start, the last step first, from index `at` on. Returns the index behind it.
// What is lent stays apart: the run is written, and each callee reads another part of the rest, an errand the moves, a meeting the work area and the ways.
// The flag `carried` stays: no value goes with it, since the object is given in either case.
fn approach(
    run: &mut [u32],
    m: Model,
    s: States,
    moves: &Moves,
    carried: bool,
    to: usize,
    object: u32,
    at: usize,
) -> usize
    requires { WellFormed m × Proper s × Discovered (program_of m) s × Mapped m s moves.now.table moves.now.steps × Ready m s (holder m 0 0) false to to × (object < limit.objects) × (at + s.count ≤ length run.old) }
    ensures { Written (Approach m s carried object to) (approached m s carried) run.old at run.new result }
{
    if carried {
        return at;
    }
    witness_walk::errand(
        run,
        m,
        s,
        &moves.table,
        &moves.steps,
        0,
        0,
        to,
        to,
        object,
        at,
    )
}

// Writes how stage 1 is met with the object for its first variable and the pair of level 1, the last place first. Returns the index behind it.
fn open_with(
    run: &mut [u32],
    work: &[u8],
    slots: &[u8],
    m: Model,
    s: States,
    moves: &Moves,
    cast: Cast,
    carried: bool,
    object: u32,
    slot: usize,
    p: Stand,
) -> usize
    requires { Known m work.now s × Mapped m s moves.now.table moves.now.steps × Marks moves.now.ways (Between s.count (λ e t. Comes (program_of m) (row s) (state (row s) e) (state (row s) t))) × Own width.slots slots.now × Numbered s cast × (object < limit.objects) × (slot < s.count) × (0 < (stage_at m 0).variables) × ((σ : ℕ → ℕ) × Opens m work.now s moves.now.ways slot p.pair.first p.pair.second σ) × (p.at + opened m s carried + s.count ≤ length run.old) }
    ensures { Written (Opening m s cast carried object slot p.pair.first p.pair.second) (opened m s carried) run.old p.at run.new result }
{
    let first = p.pair.first;
    let second = p.pair.second;
    let c = witness_meetings::opening(work, slots, m, s, &moves.ways, slot, first, second);
    let to = c.first.unwrap();
    let met = witness_meetings::meet_first(run, m, cast, object, c, p.at);
    let then = witness_walk::errand(
        run,
        m,
        s,
        &moves.table,
        &moves.steps,
        1,
        0,
        second,
        second,
        cast.second,
        met,
    );
    let at = approach(run, m, s, moves, carried, first, cast.first, then);
    witness_walk::lead(run, m, s, &moves.table, &moves.steps, slot, to, object, at)
}

// Writes a run into the table that goes on from a database with so many objects, of which this one has the state of the slot and stands for the first variable of stage 1. Returns how many places it has.
pub fn witness_from(
    run: &mut [u32],
    work: &[u8],
    m: Model,
    s: States,
    rows: &[u8; LEVELS],
    moves: &Moves,
    existing: u32,
    object: u32,
    slot: usize,
) -> usize
    requires { Recorded m work.now s rows.now moves.now.table moves.now.steps moves.now.ways × ((e f : ℕ) × Sits rows.now m.stagecount e f) × Openable m work.now s rows.now moves.now.ways slot × (0 < (stage_at m 0).variables) × (existing ≤ limit.earlier) × (object < existing) × (slot < s.count) × (limit.run ≤ length run.old) }
    ensures { (D : Database) → length D ≡ existing → state D object ≡ state (row s) slot → ShownFrom m D object run.old run.new result }
{
    let slots = facts_candidates::slots();
    let pair = witness::goal(rows, m.stagecount);
    let carried = first_carried(m);
    let roles = cast(carried, existing, s.count, object);
    let p = witness_walk::walk(run, work, &slots, m, s, rows, moves, roles, 1, pair);
    let at = open_with(
        run, work, &slots, m, s, moves, roles, carried, object, slot, p,
    );
    let r = witness_lineage::build(run, m, s, existing, at);
    run[..r].reverse();
    r
}
