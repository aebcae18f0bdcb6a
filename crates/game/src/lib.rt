// The game of attacker and guardian over a text.
#![tactic(auto)]

ghost use Rattle.game.specs.Playing.{Plays};

use game_answer::Game;
use limits::WORK;
use rows::Refusal;

// Reads a text, and tells for each reachable state who can force the outcome of the game; a refusal of the text leaves the work bytes as they are.
pub fn play(
    text: &[u8],
    attacker: &[u32],
    guardian: &[u32],
    work: &mut [u8],
) -> Result<Game, Refusal>
    ensures { Plays text.now attacker.now guardian.now work.old result work.new }
{
    let m = text::accept(text, work.len() < WORK, false)?;
    game_answer::decide(m, attacker, guardian, work)
}
