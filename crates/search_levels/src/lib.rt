// The levels of a question: in which states the carried objects can be with so many stages met, pair by pair, by who can come from which state to which.
#![tactic(auto)]

ghost use Rattle.std.specs.Prelude.{◌≡◌, ◌↔◌, true, if◌then◌else◌, ◌&&◌, ◌||◌, ℕ, suc, ◌+◌, ◌*◌, ◌≤◌, ◌<◌, ◌==◌, length, MatchOption, IfSome};
ghost use Rattle.limits.specs.Limits as limit;
ghost use Rattle.model.specs.Records.{stage_at};
ghost use Rattle.model.specs.WellFormed.{WellFormed};
ghost use Rattle.facts_bits.specs.Width as width;
ghost use Rattle.facts_bits.specs.Bits.{bit_at, in_row};
ghost use Rattle.facts_candidates.specs.Choices.{element_of, chosen};
ghost use Rattle.search_states.specs.States.{row, Proper};
ghost use Rattle.search_ways.specs.Moves.{matrix_bytes, Exactly};
ghost use Rattle.search_levels.specs.Levels.{Aims, pair_at, OnLevel, Filled};
ghost use Rattle.search_levels.specs.Passing.{stands, place, Has, Picked, Onward, Led, besides, Aimed, Holding, Met, Hopeful, Over, Asked, Ready, walker_of, meeting_of, Clear, Written};

use facts_bits::{BYTES, WIDTH};
use facts_candidates::Choice;
use limits::{CARRIED, LISTED, STAGES};
use model::{Model, Stage};
use search_states::States;
use search_ways::MATRIX;

// The bytes of the matrices of all levels.
pub const LEVELS: usize = (STAGES + 1) * MATRIX;

// Matrix k has the pairs of level k, with k stages met: bit e of its row f is set if the object of the first carried variable can be in slot e while that of the
// second is in slot f. As long as a variable stood in no stage its slot is 0 and says nothing.
// Slot 0 stays for no slot: rows and bits are numbered by the slots, and a matrix has no place for none.
#[derive(Clone, Copy)]
pub struct Levels {
    pub rows: [u8; LEVELS],
}

// The slots of the two carried objects; a slot says nothing as long as its variable stood in no stage.
// Slot 0 stays for no slot: the pair is read in the matrix of its level, which has slot 0 there.
#[derive(Clone, Copy)]
pub struct Pair {
    pub first: usize,
    pub second: usize,
}

// A carried variable at a stage: its number in the stage, if it stands there, and whether it stood in a stage before.
// The flag `chosen` stays: it is a fact about the stages before, and no field counts by it.
#[derive(Clone, Copy)]
struct Walker {
    seat: Option<usize>,
    chosen: bool,
}

// A stage: how many variables it has, the two carried ones, and a row in which the slot of its first variable has to be, if there is one.
#[derive(Clone, Copy)]
struct Meeting {
    variables: usize,
    first: Walker,
    second: Walker,
    pointing: Option<[u8; BYTES]>,
}

// What is asked where an object of the state stands for the first variable: a slot to which it can come. A state that is not in the row, such as the empty one, comes to none.
// The `match` stays beside `map_or`: its closure would need a clause of its own, that its slot is one of the matrix.
pub fn aim(s: States, ways: &[u8; MATRIX], state: u32) -> [u8; BYTES]
    requires { Proper s }
    ensures { Aims s ways.now state result }
{
    match search_states::seek(s.row(), state) {
        Some(e) => facts_bits::row(ways, e),
        None => [0u8; BYTES],
    }
}

// What stage k asks besides.
fn asked_at(p: Option<[u8; BYTES]>, k: usize) -> Option<[u8; BYTES]>
    ensures { result ≡ besides p k }
{
    if k == 0 { p } else { None }
}

// The choice with slot e for the variable, where it stands in the stage.
// It stays beside `name` of witness_meetings, where the reason stands.
fn seated(c: Choice, a: Walker, e: usize) -> Choice
    requires { stands a ≡ true → place a < limit.variables }
    ensures { (x : ℕ) → x < limit.variables → element_of result x ≡ (if stands a && x == place a then Some e else element_of c x) }
{
    match a.seat {
        Some(v) => c.choose(v, e),
        None => c,
    }
}

// Does the body hold for a choice with the fixed slots, and with slot e for its first variable, which is free?
// The work area, the slots and the body stay three parameters, here and below: each contract names them one by one, so that with them in `Meeting` only the parameters would be fewer, and each clause would be longer.
fn begins(work: &[u8], slots: &[u8], body: &[u32], variables: usize, c: Choice, e: usize) -> bool
    requires { Asked work.now slots.now body.now variables × (0 < variables) × (element_of c 0 ≡ None) }
    ensures { Over work.now (length slots.now) (λ S. (result ≡ true) ↔ Holding S work.now body.now variables c (λ σ. σ 0 ≡ e)) }
{
    let one = c.choose(0, e);
    facts_holds::shows(work, slots, body, variables, one)
}

// Does it hold with some slot of the row for its first variable?
// What is lent stays apart, as at `begins`.
fn somewhere(
    work: &[u8],
    slots: &[u8],
    body: &[u32],
    variables: usize,
    row: [u8; BYTES],
    c: Choice,
) -> bool
    requires { Asked work.now slots.now body.now variables × (0 < variables) × (element_of c 0 ≡ None) }
    ensures { Over work.now (length slots.now) (λ S. (result ≡ true) ↔ Holding S work.now body.now variables c (λ σ. bit_at row (σ 0) ≡ true)) }
{
    facts_bits::slots(row).any(|e| begins(work, slots, body, variables, c, e))
}

// Does the body hold for a choice with the fixed slots, whose first variable has a slot as asked?
fn pointed(
    work: &[u8],
    slots: &[u8],
    body: &[u32],
    variables: usize,
    p: Option<[u8; BYTES]>,
    c: Choice,
) -> bool
    requires { Asked work.now slots.now body.now variables × IfSome p (λ among. 0 < variables) × (chosen c 0 ≤ limit.none) }
    ensures { Over work.now (length slots.now) (λ S. (result ≡ true) ↔ Holding S work.now body.now variables c (Aimed p)) }
{
    if !facts_holds::shows(work, slots, body, variables, c) {
        return false;
    }
    let Some(among) = p else {
        return true;
    };
    if let Some(e) = c.first {
        return facts_bits::get(&among, e);
    }
    somewhere(work, slots, body, variables, among, c)
}

// Does the stage hold with the pair e f?
// What is lent stays apart, as at `begins`; that the stage can be asked and that f is a slot stays in clauses, and the stage and f stay apart: the stage is another one for each level and f for each row, so that a struct of both would be made anew for each row.
fn holds(work: &[u8], slots: &[u8], body: &[u32], t: Meeting, e: usize, f: usize) -> bool
    requires { Ready work.now slots.now body.now t × (e < limit.listed) × (f < limit.listed) }
    ensures { Over work.now (length slots.now) (λ S. (result ≡ true) ↔ Met S work.now body.now t e f) }
{
    let free = Choice::free();
    let one = seated(free, t.first, e);
    let both = seated(one, t.second, f);
    pointed(work, slots, body, t.variables, t.pointing, both)
}

// The slots of a row with which the stage holds, together with slot f, where the first variable stands in it.
fn fitting(
    work: &[u8],
    slots: &[u8],
    body: &[u32],
    t: Meeting,
    f: usize,
    row: [u8; BYTES],
) -> [u8; BYTES]
    requires { Ready work.now slots.now body.now t × (stands t.first ≡ true) × (f < limit.listed) }
    ensures { Over work.now (length slots.now) (λ S. Has result (λ e. (bit_at row e ≡ true) × Met S work.now body.now t e f)) }
{
    let mut out = [0u8; BYTES];
    for e in facts_bits::slots(row) {
        if e < slots.len() && holds(work, slots, body, t, e, f) {
            facts_bits::put(&mut out, e);
        }
    }
    out
}

// The slots of a row with which the stage holds, together with slot f.
fn met(
    work: &[u8],
    slots: &[u8],
    body: &[u32],
    t: Meeting,
    f: usize,
    row: [u8; BYTES],
) -> [u8; BYTES]
    requires { Ready work.now slots.now body.now t × (f < limit.listed) }
    ensures { Over work.now (length slots.now) (λ S. Has result (λ e. (bit_at row e ≡ true) × Met S work.now body.now t e f)) }
{
    if t.first.seat.is_some() {
        return fitting(work, slots, body, t, f, row);
    }
    if facts_bits::empty(row) {
        return row;
    }
    if holds(work, slots, body, t, 0, f) {
        return row;
    }
    [0u8; BYTES]
}

// The slots that the picked rows of a matrix have, where its row 0 is row `at` of the table.
fn union(table: &[u8], at: usize, picked: [u8; BYTES]) -> [u8; BYTES]
    requires { at * width.bytes + matrix_bytes ≤ length table.now }
    ensures { Has result (Picked table.now at picked) }
{
    let mut out = [0u8; BYTES];
    for u in facts_bits::slots(picked) {
        if u < LISTED {
            let row = facts_bits::row(table, at + u);
            facts_bits::widen(&mut out, 0, row);
        }
    }
    out
}

// The slots from which one can come to slot f.
fn column(ways: &[u8; MATRIX], f: usize) -> [u8; BYTES]
    requires { f < limit.listed }
    ensures { Has result (λ u. in_row ways.now u f ≡ true) }
{
    let mut out = [0; BYTES];
    for u in 0..LISTED {
        if facts_bits::get(ways, u * WIDTH + f) {
            facts_bits::put(&mut out, u);
        }
    }
    out
}

// The slots to which the first object goes from the slots of a row.
fn onward(ways: &[u8; MATRIX], a: Walker, row: [u8; BYTES]) -> [u8; BYTES]
    ensures { Has result (Onward ways.now (stands a) a.chosen (λ u. bit_at row u ≡ true)) }
{
    if a.seat.is_none() {
        return row;
    }
    if a.chosen {
        return union(ways, 0, row);
    }
    if facts_bits::get(&row, 0) {
        return facts_bits::full();
    }
    [0u8; BYTES]
}

// The slots that the first object has on level k with those from which the second one goes to slot f.
// The level and the row stay apart from the matrices, with their bounds in clauses: they are the numbers of two loops, so that a struct of them with the matrices would be made anew at each turn.
fn gathered(ways: &[u8; MATRIX], b: Walker, rows: &[u8; LEVELS], k: usize, f: usize) -> [u8; BYTES]
    requires { (k ≤ limit.stages) × (f < limit.listed) }
    ensures { Has result (λ u. Onward ways.now (stands b) b.chosen (λ v. pair_at rows.now k u v ≡ true) f) }
{
    let at = LISTED * k;
    if b.seat.is_none() {
        return facts_bits::row(rows, at + f);
    }
    if b.chosen {
        return union(rows, at, column(ways, f));
    }
    facts_bits::row(rows, at)
}

// The slots that go with slot f when both objects are led on from level k.
// The stage stays beside the level and the matrices: the stage and the level are others for each level that is filled, so that a struct of them would be made anew for each.
fn led(ways: &[u8; MATRIX], t: Meeting, rows: &[u8; LEVELS], k: usize, f: usize) -> [u8; BYTES]
    requires { (k ≤ limit.stages) × (f < limit.listed) }
    ensures { Has result (λ e. Led ways.now t (pair_at rows.now k) e f) }
{
    let row = gathered(ways, t.second, rows, k, f);
    onward(ways, t.first, row)
}

// The slots to which the first object goes from level k and with which the stage holds, whatever the second one does: one evaluation for each.
// The matrices stay beside what the evaluator takes: `led` and `onward` take none of what the evaluator takes and `met` none of the matrices, so that a struct of both would be taken apart for each call.
fn hopeful(
    work: &[u8],
    slots: &[u8],
    body: &[u32],
    t: Meeting,
    ways: &[u8; MATRIX],
    rows: &[u8; LEVELS],
    k: usize,
) -> [u8; BYTES]
    requires { Ready work.now slots.now body.now t × (k ≤ limit.stages) }
    ensures { Over work.now (length slots.now) (λ S. Has result (Hopeful S work.now body.now ways.now t (pair_at rows.now k))) }
{
    let any = union(rows, LISTED * k, facts_bits::full());
    let row = onward(ways, t.first, any);
    let nobody = Walker {
        seat: None,
        chosen: false,
    };
    let alone = Meeting {
        second: nobody,
        ..t
    };
    met(work, slots, body, alone, 0, row)
}

// Row f of the level after level k.
fn next_row(
    work: &[u8],
    slots: &[u8],
    body: &[u32],
    t: Meeting,
    ways: &[u8; MATRIX],
    rows: &[u8; LEVELS],
    k: usize,
    able: [u8; BYTES],
    f: usize,
) -> [u8; BYTES]
    requires { Ready work.now slots.now body.now t × (k ≤ limit.stages) × (f < limit.listed) × Over work.now (length slots.now) (λ S. Has able (Hopeful S work.now body.now ways.now t (pair_at rows.now k))) }
    ensures { Over work.now (length slots.now) (λ S. Has result (λ e. Led ways.now t (pair_at rows.now k) e f × Met S work.now body.now t e f)) }
{
    let pairs = led(ways, t, rows, k, f);
    if facts_bits::empty(pairs) {
        return pairs;
    }
    let row = facts_bits::both(pairs, able);
    if t.second.seat.is_none() {
        return row;
    }
    if f < slots.len() {
        return met(work, slots, body, t, f, row);
    }
    [0u8; BYTES]
}

// Meets a stage: writes the matrix of level k + 1 from that of level k.
fn pass(
    work: &[u8],
    slots: &[u8],
    body: &[u32],
    t: Meeting,
    ways: &[u8; MATRIX],
    rows: &mut [u8; LEVELS],
    k: usize,
)
    requires { Ready work.now slots.now body.now t × (k < limit.stages) × Clear (limit.listed * suc k) rows.old }
    ensures { Written (limit.listed * suc k) (limit.listed * suc (suc k)) rows.old rows.new × Over work.now (length slots.now) (λ S. (e f : ℕ) → e < limit.listed → f < limit.listed → (pair_at rows.new (suc k) e f ≡ true) ↔ (Led ways.now t (pair_at rows.old k) e f × Met S work.now body.now t e f)) }
{
    let able = hopeful(work, slots, body, t, ways, rows, k);
    for f in 0..LISTED {
        let row = next_row(work, slots, body, t, ways, rows, k, able, f);
        facts_bits::widen(rows, LISTED * (k + 1) + f, row);
    }
}

// The variable of number x as a stage has it.
fn standing(stage: Stage, x: u32, chosen: bool) -> Walker
    requires { stage.variables ≤ length stage.numbers }
    ensures { result ≡ walker_of stage x chosen }
{
    Walker {
        seat: stage.seat(x),
        chosen,
    }
}

// A stage with the carried variables, where it is known which of them stood in a stage before, and what is asked besides.
fn asked(
    stage: Stage,
    carried: [u32; CARRIED],
    first: bool,
    second: bool,
    pointing: Option<[u8; BYTES]>,
) -> Meeting
    requires { stage.variables ≤ length stage.numbers }
    ensures { result ≡ meeting_of stage carried first second pointing }
{
    Meeting {
        variables: stage.variables as usize,
        first: standing(stage, carried[0], first),
        second: standing(stage, carried[1], second),
        pointing,
    }
}

// Whether the variable stood in a stage before the next one.
fn after(w: Walker) -> bool
    ensures { result ≡ (w.chosen || stands w) }
{
    w.chosen || w.seat.is_some()
}

// The levels of a question over the found states, where `ways` has who can come from which slot to which, and p is a row in which stage 1 asks besides for the slot of its first variable, or nothing.
// The loop stays over the numbers of the stages: level k + 1 is filled from level k by stage k.
pub fn fill(work: &[u8], m: Model, s: States, ways: &[u8; MATRIX], p: Option<[u8; BYTES]>) -> Levels
    requires { WellFormed m × Exactly m work.now s × IfSome p (λ among. 0 < (stage_at m 0).variables) }
    ensures { Filled m (row s) work.now ways.now p result }
{
    let own = facts_candidates::slots();
    let slots = &own[..s.count];
    let mut rows = [0u8; LEVELS];
    facts_bits::put(&mut rows, 0);
    let mut first = false;
    let mut second = false;
    for k in 0..m.stagecount {
        let stage = m.stages[k];
        let t = asked(stage, m.carried, first, second, asked_at(p, k));
        pass(work, slots, stage.body(&m.literals), t, ways, &mut rows, k);
        first = after(t.first);
        second = after(t.second);
    }
    Levels { rows }
}

// The first pair of level k, in the first row that has one.
// The loop stays beside `find_map`: a row whose first slot is no slot of a matrix is passed over, which a closure would say by the same two tests.
pub fn first_pair(rows: &[u8; LEVELS], k: usize) -> Option<Pair>
    requires { k ≤ limit.stages }
    ensures { MatchOption result ((e f : ℕ) → OnLevel rows.now k e f → ⊥) (λ p. OnLevel rows.now k p.first p.second) }
{
    for f in 0..LISTED {
        let row = facts_bits::row(rows, LISTED * k + f);
        if let Some(e) = facts_bits::first(&row, 0) {
            if e < LISTED {
                return Some(Pair {
                    first: e,
                    second: f,
                });
            }
        }
    }
    None
}
