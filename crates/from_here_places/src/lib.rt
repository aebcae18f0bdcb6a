// Where places lead from the empty database, wherever they end.
#![tactic(auto)]

ghost use Rattle.std.specs.Prelude.{◌≡◌, ◌≤◌, length};
ghost use Rattle.limits.specs.Limits as limit;
ghost use Rattle.model.specs.WellFormed.{WellFormed};
ghost use Rattle.from_here_places.specs.Stands.{unbroken, Stands};

use facts_heads::ROOM;
use limits::RUN;
use model::Model;
use replay_session::{Answer, Session};

// Whether the answer to a run of n places says that all of them are allowed: a run that merely ends early is broken at its length.
fn whole(answer: Answer, n: usize) -> bool
    ensures { result ≡ unbroken answer n }
{
    match answer {
        Answer::Kept => true,
        Answer::Broken { place } => place == n,
    }
}

// Plays the places from the empty database: where they lead, if all of them are allowed.
pub fn stand(m: Model, places: &[u32]) -> Option<Session>
    requires { WellFormed m × (length places.now ≤ limit.run) }
    ensures { Stands m places.now result }
{
    let mut facts = [0u8; ROOM];
    let mut stood = [0u32; RUN];
    let ending = replay_runs::play_run(m, places, &mut facts, &mut stood);
    let session = ending.session;
    whole(ending.answer, places.len()).then_some(session)
}
