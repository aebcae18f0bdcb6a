// The replay's state by value, and whether it fits a text.
#![tactic(auto)]

ghost use Rattle.std.specs.Prelude.{◌≡◌, true, None, IfSome, ℕ, ◌≤◌, ◌<◌, length, take, slice_index, slice_index_or};
ghost use Rattle.limits.specs.Limits as limit;
ghost use Rattle.semantics.specs.Labels.{has};
ghost use Rattle.model.specs.WellFormed.{in_class, WellFormed};
ghost use Rattle.replay_session.specs.Sessions.{Says, position_of, session_in};
ghost use Rattle.replay_session.specs.Records.{Fits};

use limits::{CARRIED, OBJECTS, RUN};
use model::{Model, Relations};

// The replay's answer to a run: kept, or broken at a place.
// It stays an enum: document 01 names the answer an enum with data, and a broken run is an answer and no failure.
#[derive(Clone, Copy)]
pub enum Answer {
    Kept,
    Broken { place: usize },
}

// The answer to one place: kept with the number of those who stood by, or broken at the count of places kept.
// It stays an enum: document 01 names the answer an enum with data, and a broken place is an answer and no failure.
// It stays beside `Answer`: one enum over what is kept would have a run kept with nothing, a `Kept(())` wherever the answer to a run is read.
#[derive(Clone, Copy)]
pub enum PlaceAnswer {
    Kept { stood: u32 },
    Broken { place: usize },
}

// The replay's state: the database, the stages met, the carried objects in the order of their variables and the count of places kept.
// The count stays beside the array: memory is fixed, and the states behind it are not read.
#[derive(Clone, Copy)]
pub struct Session {
    pub states: [u32; OBJECTS],
    pub objects: usize,
    pub met: usize,
    pub carried: [Option<usize>; CARRIED],
    pub kept: usize,
}

// The replay's state but for the states of the objects.
// The count stays beside another array: the states are lent apart from a position.
// The four fields stay beside those of `Session`: as one field of it, each would be read through that field in every contract and for each cell of EON_SESSION, and only `position` and `session` would go.
#[derive(Clone, Copy)]
pub struct Position {
    pub objects: usize,
    pub met: usize,
    pub carried: [Option<usize>; CARRIED],
    pub kept: usize,
}

impl Session {
    // The state but for the states of the objects.
    pub fn position(&self) -> Position
        ensures { result ≡ position_of self.now }
    {
        Position {
            objects: self.objects,
            met: self.met,
            carried: self.carried,
            kept: self.kept,
        }
    }
}

impl Position {
    // The state with these states of the objects.
    pub fn session(&self, states: [u32; OBJECTS]) -> Session
        ensures { result ≡ session_in states self.now }
    {
        Session {
            states,
            objects: self.objects,
            met: self.met,
            carried: self.carried,
            kept: self.kept,
        }
    }
}

// How many state relations are declared.
fn declared_states(relations: Relations) -> u32
    requires { relations.count ≤ limit.declared }
    ensures { result ≡ in_class 0 (take relations.count relations.codes) }
{
    relations.codes[..relations.count]
        .iter()
        .filter(|code| **code < 32)
        .count() as u32
}

// Whether the states have no relations but the first n.
fn relations_declared(states: &[u32], n: u32) -> bool
    requires { n < 32 }
    ensures { Says ((o a : ℕ) → o < length states.now → has (slice_index states.now o) a ≡ true → a < n) result }
{
    states.iter().all(|state| *state >> n == 0)
}

// Whether each carried object is one of the n that were created, or none.
fn carried_created(carried: [Option<usize>; CARRIED], n: usize) -> bool
    ensures { Says ((v : ℕ) → v < limit.carried → IfSome (slice_index_or carried v None) (λ o. o < n)) result }
{
    carried.iter().all(|object| object.is_none_or(|o| o < n))
}

// Whether the state fits the text.
pub fn fits(m: Model, s: Session) -> bool
    requires { WellFormed m }
    ensures { Says (Fits m s) result }
{
    if s.objects > OBJECTS || s.met > m.stagecount || s.kept > RUN {
        return false;
    }
    carried_created(s.carried, s.objects)
        && relations_declared(&s.states[..s.objects], declared_states(m.relations))
}
