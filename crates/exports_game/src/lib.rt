// Attacker and guardian, for C and Rust: the answer as a number, the states and their numbers of moves as rows of cells (include/eon.h).
#![tactic(auto)]

ghost use Rattle.std.specs.Prelude.{◌≡◌};
ghost use Rattle.exports_game.specs.Codes.{coded as code_of, Few};
ghost use Rattle.exports_game.specs.Calls.{Tells};

use game_answer::Game;
use limits::LISTED;
use rows::Refusal;
use words::Kind;

// The number of an answer, with how many states stand beside it.
// It stays a function and no `From`: neither a `Result` nor `u64` is a type of this crate.
fn coded(game: Result<Game, Refusal>) -> u64
    requires { Few game }
    ensures { result ≡ code_of game }
{
    match game {
        Ok(g) => words::word(Kind::Told, g.count as u64),
        Err(r) => words::refused(r),
    }
}

// Tells for each reachable state who can force the outcome of the game.
#[unsafe(no_mangle)]
pub extern "C" fn eon_game(
    text: &[u8],
    attacker: &[u32],
    guardian: &[u32],
    work: &mut [u8],
    states: &mut [u32; LISTED],
    moves: &mut [u32; LISTED],
) -> u64
    ensures { Tells text.now attacker.now guardian.now work.old result work.new states.new moves.new }
{
    let game = game::play(text, attacker, guardian, work);
    *states = game.map_or([0; LISTED], |g| g.states);
    *moves = game.map_or([0; LISTED], |g| g.moves);
    coded(game)
}
