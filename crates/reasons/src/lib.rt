// Why a place is not allowed.
#![tactic(auto)]

ghost use Rattle.std.specs.Prelude.{◌≡◌, List, [], ◌∷◌, ℕ, ◌≤◌, ◌<◌};
ghost use Rattle.std.proofs.Math.Option.{some};
ghost use Rattle.limits.specs.Limits as limit;
ghost use Rattle.semantics.specs.Runs as runs;
ghost use Rattle.semantics.specs.Runs.{step, meet};
ghost use Rattle.model.specs.Places.{objects, place_of};
ghost use Rattle.replay_session.specs.Sessions.{Says, session_in};
ghost use Rattle.replay_view.specs.declared.View.{View};
ghost use Rattle.replay_steps.specs.Tries.{Lent, Open};
ghost use Rattle.reasons.specs.Reasons.{Explains, Swapped, AnySwapped, Absent, Beyond};

use facts_candidates::Choice;
use limits::CARRIED;
use model::{Action, Model, Place, Stage};
use replay_session::Position;

// Why a place of a run is not allowed: the run ended with a stage left; all stages are met; the line is no `new` or `next` line; the object is not the next one; it is not there; another stage is next; the stage has another number of variables; a carried variable stands for another object; or the literal at a place of the body is to blame.
// The reasons stay cases of one enum: each is a reason of its own, and none is for a refusal or for nothing.
#[derive(Clone, Copy)]
pub enum Reason {
    Ends,
    Done,
    NoLine,
    NotNext,
    NoObject,
    OtherStage,
    Variables,
    Carried,
    Literal { index: usize },
}

// Why a step of a line and an object is not allowed.
// The view and the states stay in the clauses alone: the code reads some parts of them. What is lent stays apart: the slots are a part of the view and the work area is not, so that a struct of both would be made for one place, to be taken apart by `blame` again.
fn why_step(m: &Model, slots: &[u8], work: &[u8], at: Position, line: u32, object: u32) -> Reason
    requires { ((v : View) × (states : List ℕ) × Open m.now v (session_in states at) slots.now work.now (step line object)) × (object < limit.objects) }
    ensures { (v : View) (states : List ℕ) → Open m.now v (session_in states at) slots.now work.now (step line object) → Explains m.now (session_in states at) (step line object) result }
{
    let n = at.objects;
    let Some(c) = m.clause_on(line) else {
        return Reason::NoLine;
    };
    let Some(fixed) = replay_steps::fixed(c.action, n, object) else {
        return match c.action {
            Action::Rule { .. } => Reason::NoLine,
            Action::New { .. } => Reason::NotNext,
            Action::Next { .. } => Reason::NoObject,
        };
    };
    let index = reasons_bodies::blame(c.body(&m.literals), &slots[..n], work, fixed);
    Reason::Literal { index }
}

// Is an object not there, in a database of so many, or is there none?
fn absent(object: Option<usize>, objects: usize) -> bool
    ensures { Says (Absent object objects) result }
{
    object.is_none_or(|e| e >= objects)
}

// Is one of the n objects of a choice not there, in a database of so many?
fn beyond(c: Choice, n: usize, objects: usize) -> bool
    ensures { Says (Beyond c n objects) result }
{
    (0..n).any(|x| absent(c.element(x), objects))
}

// Does a choice have another object than the carried one for the stage's variable of a number?
// It and `any_swapped` stay beside `all_named` and `all_agree` of `replay_meetings`: `all_agree` promises no more than that not all objects agree, and what is promised here is a variable at which another object stands, as the reason says it.
fn swapped(g: Stage, number: u32, carried: Option<usize>, c: Choice) -> bool
    requires { g.variables ≤ limit.variables }
    ensures { Says (Swapped g number carried c) result }
{
    let Some(held) = carried else {
        return false;
    };
    let n = g.variables as usize;
    (0..n).any(|x| g.numbers[x] == number && c.element(x) != Some(held))
}

// Does a choice have another object than the carried one for some of the carried variables of these numbers?
fn any_swapped(
    numbers: [u32; CARRIED],
    g: Stage,
    carried: [Option<usize>; CARRIED],
    c: Choice,
) -> bool
    requires { g.variables ≤ limit.variables }
    ensures { Says (AnySwapped numbers g carried c) result }
{
    numbers
        .iter()
        .zip(&carried)
        .any(|(number, held)| swapped(g, *number, *held, c))
}

// Why the meeting of a stage with objects, the named ones first, is not allowed.
// The tests of the stage and of the number of objects stay beside those of `replay_meetings::meet_place`: each has a reason of its own here and none there, so that one function for both would answer an enum of cases for two tests.
fn why_meeting(
    m: &Model,
    slots: &[u8],
    work: &[u8],
    at: Position,
    stage: u32,
    first: u32,
    second: u32,
    third: u32,
) -> Reason
    requires { (v : View) × (states : List ℕ) × Open m.now v (session_in states at) slots.now work.now (meet stage (objects (first ∷ second ∷ third ∷ []))) }
    ensures { (v : View) (states : List ℕ) → Open m.now v (session_in states at) slots.now work.now (meet stage (objects (first ∷ second ∷ third ∷ []))) → Explains m.now (session_in states at) (meet stage (objects (first ∷ second ∷ third ∷ []))) result }
{
    let i = at.met;
    if stage as usize != i + 1 {
        return Reason::OtherStage;
    }
    let g = m.stages[i];
    if replay_meetings::count(first, second, third) != g.variables {
        return Reason::Variables;
    }
    let fixed = replay_meetings::choice(first, second, third);
    let n = at.objects;
    if beyond(fixed, g.variables as usize, n) {
        return Reason::NoObject;
    }
    let carried = at.carried;
    if any_swapped(m.carried, g, carried, fixed) {
        return Reason::Carried;
    }
    let index = reasons_bodies::blame(g.body(&m.literals), &slots[..n], work, fixed);
    Reason::Literal { index }
}

// Why a place, by its number, is not allowed.
pub fn why_place(m: &Model, slots: &[u8], work: &[u8], at: Position, n: u32) -> Reason
    requires { (v : View) × (states : List ℕ) × Lent m.now v (session_in states at) slots.now work.now n }
    ensures { (v : View) (states : List ℕ) → Lent m.now v (session_in states at) slots.now work.now n → (p : runs.Place) → place_of n ≡ some p → Explains m.now (session_in states at) p result }
{
    if at.met >= m.stagecount {
        return Reason::Done;
    }
    match model::place_of(n) {
        Place::Step { line, object } => { why_step(m, slots, work, at, line, object) }
        Place::Meeting {
            stage,
            first,
            second,
            third,
        } => why_meeting(m, slots, work, at, stage, first, second, third),
        Place::Malformed => Reason::NoLine,
    }
}
