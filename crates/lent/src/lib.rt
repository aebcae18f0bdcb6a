// One place put to a lent state over a text. The state is updated in place.
#![tactic(auto)]

ghost use Rattle.replay.specs.Replies.{place_outcome, Put};

use replay_session::{PlaceAnswer, Session};
use rows::Refusal;

// Puts one place to the lent state: the thin entry over the place by value.
pub fn put(text: &[u8], s: &mut Session, n: u32, work: &mut [u8]) -> Result<PlaceAnswer, Refusal>
    ensures { Put (place_outcome text.now s.old work.old) s.old n work.old result s.new work.new }
{
    let reply = replay::place(text, *s, n, work)?;
    let session = reply.session;
    *s = session;
    Ok(reply.answer)
}
