// A step put to the replay's state: whether it is allowed, and what it makes of the state. The model is lent, and so are the slots of the view.
#![tactic(auto)]

ghost use Rattle.std.specs.Prelude.{◌≡◌, IfSome, map, ℕ, ◌+◌, ◌<◌, length};
ghost use Rattle.limits.specs.Limits as limit;
ghost use Rattle.semantics.specs.Models.{vars, Supported};
ghost use Rattle.semantics.specs.Runs.{step};
ghost use Rattle.model.specs.declared.Model.{Model};
ghost use Rattle.model.specs.Literals.{body_of, GoodBody};
ghost use Rattle.model.specs.Records.{up_from};
ghost use Rattle.model.specs.WellFormed.{WellFormed};
ghost use Rattle.facts_table.specs.Table.{Consistent};
ghost use Rattle.facts_candidates.specs.Choices.{chosen};
ghost use Rattle.facts_find.specs.Bodies.{Decides};
ghost use Rattle.facts_rests.specs.Rests.{Within};
ghost use Rattle.replay_session.specs.declared.Session.{Session};
ghost use Rattle.replay_session.specs.Sessions.{session_in};
ghost use Rattle.replay_session.specs.Notes.{standing};
ghost use Rattle.replay_view.specs.declared.View.{View};
ghost use Rattle.replay_view.specs.Views.{slots_of};
ghost use Rattle.replay_steps.specs.Tries.{Rests, Ready, Open, Holding, Fixes, afterwards, Gives, TriedBy};

use facts_bits::BYTES;
use facts_candidates::Choice;
use limits::OBJECTS;
use model::{Action, Model};
use replay_session::{Position, Session};

// The state that a place gives an object.
#[derive(Clone, Copy)]
pub struct NewState {
    pub object: usize,
    pub state: u32,
}

// What an allowed place makes of the state: the state that it gives an object, if it gives one; the position after it; and the number of those who stood by.
// 0 stays for a meeting: the number is a word of the table that C lends, and document 02 has a kept meeting get 0 there.
#[derive(Clone, Copy)]
pub struct Outcome {
    pub given: Option<NewState>,
    pub at: Position,
    pub stood: u32,
}

impl Outcome {
    // The state after the place, where these were the states of the objects before it. An object that is none changes none of them.
    pub fn session(&self, states: [u32; OBJECTS]) -> Session
        ensures { result ≡ afterwards states self.now }
    {
        let mut states = states;
        if let Some(given) = self.given {
            if given.object < OBJECTS {
                states[given.object] = given.state;
            }
        }
        self.at.session(states)
    }
}

// The derived relations that a step of a line rests on, as a row of bits.
pub fn needs(m: &Model, line: u32) -> [u8; BYTES]
    requires { WellFormed m.now }
    ensures { (object : ℕ) → Rests m.now result (step line object) }
{
    let Some(c) = m.clause_on(line) else {
        return [0u8; BYTES];
    };
    facts_rests::add([0u8; BYTES], c.body(&m.literals))
}

// The first choice that has the fixed objects and for which a body holds in a database whose objects have these slots, or that there is none.
// The body, the slots and the table stay apart: the slots and the table are written between two places of a run, so that a struct of the three would be made anew for each place.
// The call stays beside that of `facts_holds::seek`, which says what it answers over states that are their own slots: here the elements are objects, of which several may have one slot.
pub fn decide(
    body: &[u32],
    slots: &[u8],
    work: &[u8],
    variables: u32,
    fixed: Choice,
) -> Option<Choice>
    requires { Consistent work.now × GoodBody body.now (length body.now) variables × Supported (vars (body_of body.now (length body.now))) (body_of body.now (length body.now)) }
    ensures { (m : Model) (v : View) (s : Session) (ready : Ready m s v work.now) → Within ready.relations (body_of body.now (length body.now)) → slots_of v s.objects ≡ slots.now → Decides variables (Holding m s (body_of body.now (length body.now)) variables fixed) result }
{
    facts_find::find(work, slots, body, variables as usize, fixed)
}

// The number of those who stood by: the objects that a choice has for n variables, 255 where there is none.
// 255 stays for none: this number is a word of the table that C lends.
fn number(n: usize, c: Choice) -> u32
    requires { (x : ℕ) → x < n → chosen c x < limit.objects }
    ensures { result ≡ standing (map (chosen c) (up_from 0 n)) }
{
    let first = c.object(n, 0);
    let second = c.object(n, 1);
    let third = c.object(n, 2);
    first * 65_536 + second * 256 + third
}

// The position after a kept step that leaves so many objects.
fn onward(at: Position, objects: usize) -> Position
    requires { at.kept < limit.run }
    ensures { result ≡ record { objects = objects; met = at.met; carried = at.carried; kept = at.kept + 1 } }
{
    Position {
        objects,
        kept: at.kept + 1,
        ..at
    }
}

// The choice of the objects that a step of a line fixes, where n objects are there, if the object is one for the line: a `new` line has the next object and fixes none, a `next` line fixes the object, which is there.
pub fn fixed(action: Action, n: usize, object: u32) -> Option<Choice>
    ensures { Fixes action n object result }
{
    let o = object as usize;
    match action {
        Action::New { .. } if o == n => Some(Choice::free()),
        Action::Next { .. } if o < n => {
            let nobody = Choice::free();
            Some(nobody.choose(0, o))
        }
        _ => None,
    }
}

// A step of a line and an object.
// The bound of an object stays a clause: a type with it would be made of a part of a place's number by this very clause, to be taken apart for an index. What is lent stays apart as at `decide`, and the position beside it, which is another one after each place.
pub fn step_place(
    m: &Model,
    states: &[u32],
    slots: &[u8],
    work: &[u8],
    at: Position,
    line: u32,
    object: u32,
) -> Option<Outcome>
    requires { ((v : View) × Open m.now v (session_in states.now at) slots.now work.now (step line object)) × (object < limit.objects) }
    ensures tried_by { TriedBy m.now states.now at (step line object) result }
    ensures gives { IfSome result (Gives at) }
{
    let n = at.objects;
    let c = m.clause_on(line)?;
    let o = object as usize;
    let objects = fixed(c.action, n, object)?;
    let choice = decide(c.body(&m.literals), &slots[..n], work, c.variables, objects)?;
    let stood = number(c.variables as usize, choice);
    match c.action {
        Action::Rule { .. } => None,
        Action::New { set } => Some(Outcome {
            given: Some(NewState {
                object: n,
                state: set,
            }),
            at: onward(at, n + 1),
            stood,
        }),
        Action::Next { plus, minus } => {
            let state = labels::relabel(states[o], plus, minus);
            Some(Outcome {
                given: Some(NewState { object: o, state }),
                at: onward(at, n),
                stood,
            })
        }
    }
}
