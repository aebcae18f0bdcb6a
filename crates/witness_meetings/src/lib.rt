// The meetings of a shown run: the objects that meet a stage, and the places that are written for them.
#![tactic(auto)]

ghost use Rattle.std.specs.Prelude.{◌≡◌, [], ◌∷◌, ℕ, ◌+◌, ◌*◌, ◌≤◌, ◌<◌, length};
ghost use Rattle.std.proofs.Math.Option.{Option};
ghost use Rattle.limits.specs.Limits as limit;
ghost use Rattle.semantics.specs.Building.{follows};
ghost use Rattle.model.specs.Places.{number_of};
ghost use Rattle.model.specs.Records.{stage_body, stage_at};
ghost use Rattle.model.specs.WellFormed.{WellFormed};
ghost use Rattle.facts_bits.specs.Width as width;
ghost use Rattle.facts_candidates.specs.Choices.{chosen, Own};
ghost use Rattle.search_states.specs.States.{row};
ghost use Rattle.facts_holds.specs.Shows.{Seeks};
ghost use Rattle.witness_meetings.specs.Meetings.{Known, Written, Numbers, Names, NamesBoth, meeting, Numbered, Behind, Takes, gathering, Chooses, Seating, Met, first_variable, Opens, Attempts};

use facts_bits::WIDTH;
use facts_candidates::Choice;
use model::{Model, Place, Stage};
use search_states::States;

// The objects of a shown run: object base + i has the found state i, and two more stand for the carried variables.
#[derive(Clone, Copy)]
pub struct Cast {
    pub base: u32,
    pub first: u32,
    pub second: u32,
}

// The choice with element e for the variable, where the stage has it.
// It stays beside `seated` of search_levels: a function for both would be public, with a contract over an Option, and `name` and `seated` would stay around its one call, each with its own contract, over a stage here and a carried variable at a stage there.
fn name(stage: Stage, variable: u32, e: usize, c: Choice) -> Choice
    requires { Numbers stage }
    ensures { Names stage variable e c result }
{
    match stage.seat(variable) {
        Some(x) => c.choose(x, e),
        None => c,
    }
}

// The choice with these elements for the carried variables, where stage k + 1 has them.
// That the model is well formed stays a clause: a record is blank before a text is read into it, which is not well formed, and a second type around a well-formed record would be opened wherever a field of it is read.
// The stage and the two numbers stay apart: they are slots in one call and objects of the cast in another, so that a struct would be made anew for each.
fn name_both(m: Model, k: usize, first: usize, second: usize, c: Choice) -> Choice
    requires { WellFormed m × (k < m.stagecount) }
    ensures { NamesBoth m k first second c result }
{
    let stage = m.stages[k];
    let one = name(stage, m.carried[0], first, c);
    name(stage, m.carried[1], second, one)
}

// The choice with element e for the first variable of stage 1.
fn name_first(m: Model, e: usize, c: Choice) -> Choice
    requires { WellFormed m }
    ensures { Names (stage_at m 0) (first_variable m) e c result }
{
    let stage = m.stages[0];
    name(stage, stage.numbers[0], e, c)
}

// A choice of found states, with the fixed ones, that meets stage k + 1, if there is one.
// The work area, the slots, the model and the states stay apart, with what is known of them in clauses: each contract names them one by one, so that with a struct only the parameters would be fewer, and each clause longer.
fn seek_stage(
    work: &[u8],
    slots: &[u8],
    m: Model,
    s: States,
    k: usize,
    fixed: Choice,
) -> Option<Choice>
    requires { Known m work.now s × Own width.slots slots.now × (k < m.stagecount) }
    ensures { Seeks (row s) work.now (stage_body m.literals (stage_at m k)) (stage_at m k).variables fixed result }
{
    let g = m.stages[k];
    let slots = &slots[..s.count];
    facts_holds::seek(
        work,
        slots,
        g.body(&m.literals),
        g.variables as usize,
        fixed,
    )
}

// A choice of found states that meets stage k + 1, with the carried objects in these slots where their variables stand in it.
// The two slots stay two parameters: `name_both` is given two objects of the cast too, so that a `Pair` would be taken apart at both calls that give it slots.
fn choose(
    work: &[u8],
    slots: &[u8],
    m: Model,
    s: States,
    k: usize,
    first: usize,
    second: usize,
) -> Choice
    requires { Known m work.now s × Own width.slots slots.now × (k < m.stagecount) × ((σ : ℕ → ℕ) × Seating m work.now s k first second σ) }
    ensures { (σ : ℕ → ℕ) × Seating m work.now s k first second σ × Chooses (stage_at m k) result σ }
{
    let free = Choice::free();
    let fixed = name_both(m, k, first, second, free);
    // A level's pair has a choice that meets the stage.
    seek_stage(work, slots, m, s, k, fixed).unwrap()
}

// The objects of the states chosen for n variables: they stand behind `base` others.
fn behind(n: usize, base: u32, c: Choice) -> Choice
    requires { (n ≤ limit.variables) × ((x : ℕ) → x < n → base + chosen c x < limit.objects) }
    ensures { Behind n base c result }
{
    let mut r = c;
    for x in 0..n {
        if let Some(e) = c.element(x) {
            r = r.choose(x, base as usize + e);
        }
    }
    r
}

// The number of the meeting of stage k + 1 with the chosen objects of its n variables.
// The three objects stay asked for one by one, as in `replay_steps::number`: there they are multiplied into one number, here they are a place's parts, and an array of them would be taken apart again by both.
fn number(k: usize, n: usize, c: Choice) -> u32
    requires { (k < 127) × (n ≤ limit.variables) × ((x : ℕ) → x < n → chosen c x < limit.objects) }
    ensures { result ≡ number_of (meeting k n c) }
{
    let first = c.object(n, 0);
    let second = c.object(n, 1);
    let third = c.object(n, 2);
    let stage = k as u32 + 1;
    model::number_of(Place::Meeting {
        stage,
        first,
        second,
        third,
    })
}

// Writes the meeting of stage k + 1 at index `at` with these objects, but the cast's for the carried variables. Returns the index behind it.
// The table, the model and the cast stay apart, with the room in clauses: a struct of the three, lent for writing, would have each contract say besides that the model and the cast are as they were.
// The index stays beside the table, here and in the walk: a struct that holds the table lent would be lent on by every writer, and each `Written` would speak of two fields of it, old and new, where it speaks of two numbers.
fn gather(run: &mut [u32], m: Model, cast: Cast, k: usize, objects: Choice, at: usize) -> usize
    requires { WellFormed m × (k < m.stagecount) × (cast.first < limit.objects) × (cast.second < limit.objects) × ((x : ℕ) → x < (stage_at m k).variables → chosen objects x < limit.objects) × (at < length run.old) }
    ensures { (w : ℕ → Option ℕ) (σ : ℕ → ℕ) → Takes m cast k w σ objects → Written (λ ps. ps ≡ gathering m cast w k σ ∷ []) 1 run.old at run.new result }
{
    let stage = m.stages[k];
    let all = name_both(m, k, cast.first as usize, cast.second as usize, objects);
    run[at] = number(k, stage.variables as usize, all);
    at + 1
}

// Writes the meeting of stage k + 1 at index `at`, with the carried objects in these slots where their variables stand in it. Returns the index behind it.
pub fn meet(
    run: &mut [u32],
    work: &[u8],
    slots: &[u8],
    m: Model,
    s: States,
    cast: Cast,
    k: usize,
    first: usize,
    second: usize,
    at: usize,
) -> usize
    requires { Known m work.now s × Own width.slots slots.now × Numbered s cast × (k < m.stagecount) × ((σ : ℕ → ℕ) × Seating m work.now s k first second σ) × (at < length run.old) }
    ensures { Written (Met m s cast k first second) 1 run.old at run.new result }
{
    let stage = m.stages[k];
    let c = choose(work, slots, m, s, k, first, second);
    let objects = behind(stage.variables as usize, cast.base, c);
    gather(run, m, cast, k, objects, at)
}

// A choice of found states that meets stage 1 with state u for its first variable, if there is one; the carried objects are in these slots.
fn attempt(
    work: &[u8],
    slots: &[u8],
    m: Model,
    s: States,
    u: usize,
    first: usize,
    second: usize,
) -> Option<Choice>
    requires { Known m work.now s × Own width.slots slots.now }
    ensures { Attempts m work.now s u first second result }
{
    let free = Choice::free();
    let one = name_first(m, u, free);
    let fixed = name_both(m, 0, first, second, one);
    seek_stage(work, slots, m, s, 0, fixed)
}

// A choice of found states that meets stage 1, with the carried objects in these slots, and for its first variable a slot of row j.
// The loop stays beside `filter` and `find_map`: two closures would hold all that is lent here, each with its own contract over it, and an `unwrap()` would stand for the `unreachable!()`.
pub fn opening(
    work: &[u8],
    slots: &[u8],
    m: Model,
    s: States,
    rows: &[u8],
    j: usize,
    first: usize,
    second: usize,
) -> Choice
    requires { Known m work.now s × Own width.slots slots.now × (0 < (stage_at m 0).variables) × (j < limit.listed) × (j * width.bytes + width.bytes ≤ length rows.now) × ((σ : ℕ → ℕ) × Opens m work.now s rows.now j first second σ) }
    ensures { (σ : ℕ → ℕ) × Opens m work.now s rows.now j first second σ × Chooses (stage_at m 0) result σ }
{
    for u in 0..s.count {
        if facts_bits::get(rows, j * WIDTH + u) {
            if let Some(c) = attempt(work, slots, m, s, u, first, second) {
                return c;
            }
        }
    }
    unreachable!()
}

// Writes the meeting of stage 1 for a choice of found states at index `at`, with the object for its first variable. Returns the index behind it.
pub fn meet_first(run: &mut [u32], m: Model, cast: Cast, object: u32, c: Choice, at: usize) -> usize
    requires { WellFormed m × (object < limit.objects) × ((s : States) × Numbered s cast × ((x : ℕ) → x < (stage_at m 0).variables → chosen c x < s.count)) × (at < length run.old) }
    ensures { (σ : ℕ → ℕ) → Chooses (stage_at m 0) c σ → Written (λ ps. ps ≡ gathering m cast (follows (first_variable m) object) 0 σ ∷ []) 1 run.old at run.new result }
{
    let stage = m.stages[0];
    let others = behind(stage.variables as usize, cast.base, c);
    let objects = name_first(m, object as usize, others);
    gather(run, m, cast, 0, objects, at)
}
