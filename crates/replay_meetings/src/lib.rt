// The meeting of a stage put to the replay's state.
#![tactic(auto)]

ghost use Rattle.std.specs.Prelude.{◌≡◌, IfSome, List, [], ◌∷◌, ℕ, ◌≤◌, length};
ghost use Rattle.limits.specs.Limits as limit;
ghost use Rattle.semantics.specs.Runs.{meet};
ghost use Rattle.model.specs.Places.{objects};
ghost use Rattle.model.specs.WellFormed.{WellFormed};
ghost use Rattle.replay_session.specs.Sessions.{Says, session_in};
ghost use Rattle.replay_view.specs.declared.View.{View};
ghost use Rattle.replay_steps.specs.Tries.{Rests, Open, Gives, TriedBy};
ghost use Rattle.replay_meetings.specs.Carried.{object_of, choice_of, Named, Agrees, AllNamed, AllAgree, AllCarried};

use facts_bits::BYTES;
use facts_candidates::Choice;
use limits::{CARRIED, NONE};
use model::{Model, Stage};
use replay_session::Position;
use replay_steps::Outcome;
use std::array;

// How many objects a meeting names.
// The three numbers stay apart, here and below, as the three fields of `model::Place` that they are.
pub fn count(first: u32, second: u32, third: u32) -> u32
    ensures { result ≡ length (objects (first ∷ second ∷ third ∷ [])) }
{
    match (first, second, third) {
        (NONE, _, _) => 0,
        (_, NONE, _) => 1,
        (_, _, NONE) => 2,
        _ => 3,
    }
}

// The object of a number, which is NONE for none.
// NONE stays for none in numbers: they are words of the run table and cells of the state that C lends.
pub fn as_object(number: u32) -> Option<usize>
    ensures { result ≡ object_of number }
{
    (number != NONE).then_some(number as usize)
}

// The choice of a meeting's objects.
pub fn choice(first: u32, second: u32, third: u32) -> Choice
    ensures { result ≡ choice_of first second third }
{
    Choice {
        first: as_object(first),
        second: as_object(second),
        third: as_object(third),
    }
}

// The object that a choice has for the stage's variable of a number, if the stage has that variable.
fn named(g: Stage, number: u32, c: Choice) -> Option<usize>
    requires { g.variables ≤ limit.variables }
    ensures { Named g number c result }
{
    let x = g.seat(number)?;
    c.element(x)
}

// Whether an object may be met where another, or none, is carried.
fn agrees(carried: Option<usize>, object: Option<usize>) -> bool
    ensures { Says (Agrees carried object) result }
{
    carried.is_none() || object.is_none() || object == carried
}

// The objects that a choice has for the carried variables of these numbers, none for one that the stage does not have.
fn all_named(numbers: [u32; CARRIED], g: Stage, c: Choice) -> [Option<usize>; CARRIED]
    requires { g.variables ≤ limit.variables }
    ensures { AllNamed numbers g c result }
{
    array::from_fn(|v| named(g, numbers[v], c))
}

// Whether the objects may be met where these, or none, are carried.
fn all_agree(carried: [Option<usize>; CARRIED], objects: [Option<usize>; CARRIED]) -> bool
    ensures { Says (AllAgree carried objects) result }
{
    carried
        .iter()
        .zip(&objects)
        .all(|(held, object)| agrees(*held, *object))
}

// The carried objects after the meeting.
fn carry_all(
    carried: [Option<usize>; CARRIED],
    objects: [Option<usize>; CARRIED],
) -> [Option<usize>; CARRIED]
    ensures { AllCarried carried objects result }
{
    array::from_fn(|v| objects[v].or(carried[v]))
}

// The derived relations that a meeting of a stage rests on, as a row of bits.
pub fn needs(m: &Model, stage: u32) -> [u8; BYTES]
    requires { WellFormed m.now }
    ensures { (os : List ℕ) → Rests m.now result (meet stage os) }
{
    if stage == 0 || stage as usize > m.stagecount {
        return [0u8; BYTES];
    }
    let g = m.stages[stage as usize - 1];
    facts_rests::add([0u8; BYTES], g.body(&m.literals))
}

// The meeting of a stage with objects, the named ones first.
pub fn meet_place(
    m: &Model,
    slots: &[u8],
    work: &[u8],
    at: Position,
    stage: u32,
    first: u32,
    second: u32,
    third: u32,
) -> Option<Outcome>
    requires { (v : View) × (states : List ℕ) × Open m.now v (session_in states at) slots.now work.now (meet stage (objects (first ∷ second ∷ third ∷ []))) }
    ensures tried_by { (v : View) (states : List ℕ) → Open m.now v (session_in states at) slots.now work.now (meet stage (objects (first ∷ second ∷ third ∷ []))) → TriedBy m.now states at (meet stage (objects (first ∷ second ∷ third ∷ []))) result }
    ensures gives { IfSome result (Gives at) }
{
    let i = at.met;
    if stage as usize != i + 1 {
        return None;
    }
    let g = m.stages[i];
    if count(first, second, third) != g.variables {
        return None;
    }
    let fixed = choice(first, second, third);
    let carried = at.carried;
    let objects = all_named(m.carried, g, fixed);
    if !all_agree(carried, objects) {
        return None;
    }
    let n = at.objects;
    replay_steps::decide(g.body(&m.literals), &slots[..n], work, g.variables, fixed)?;
    Some(Outcome {
        given: None,
        at: Position {
            objects: n,
            met: i + 1,
            carried: carry_all(carried, objects),
            kept: at.kept + 1,
        },
        stood: 0,
    })
}
