// The game of attacker and guardian over an accepted model.
#![tactic(auto)]

ghost use Rattle.std.specs.Prelude.{◌≡◌, false, ◌≤◌, length};
ghost use Rattle.limits.specs.Limits as limit;
ghost use Rattle.model.specs.Records.{program_of, question_of};
ghost use Rattle.model.specs.WellFormed.{WellFormed};
ghost use Rattle.search_states.specs.States.{row, Proper};
ghost use Rattle.search_states.specs.Rising.{Lists};
ghost use Rattle.search.specs.Search.{Surveyed};
ghost use Rattle.game_lists.specs.Lists.{OneVariable};
ghost use Rattle.game_answer.specs.Telling.{Telling, faulted, Settles};
ghost use Rattle.game_answer.specs.Arranging.{Arranged};

use calls::CROWDED;
use facts_heads::ROOM;
use limits::{LISTED, NONE};
use model::Model;
use rows::{Refusal, Row};
use search::Explored;
use search_states::{Listing, States};

// The reachable states by rising number, the empty one first, for each the fewest moves of the attacker, 255 where it is the guardian's, and how many states they are.
// The count stays beside two arrays, and 255 stays for the guardian: `eon_game` copies both rows as they stand into the cells that C lends, where Options would be turned into these numbers one by one.
#[derive(Clone, Copy)]
pub struct Game {
    pub states: [u32; LISTED],
    pub moves: [u32; LISTED],
    pub count: usize,
}

// The numbers in the order of the listing, NONE where there is none.
// The cells stay written by their number, for the reason at `facts_bits::widen`.
fn arranged(s: States, listing: Listing, ranks: [Option<u32>; LISTED]) -> [u32; LISTED]
    requires { Proper s × Lists s listing }
    ensures { Arranged (row s) listing.states listing.count ranks result }
{
    let mut moves = [0u32; LISTED];
    for (i, state) in listing.states[..listing.count].iter().enumerate() {
        let slot = search_states::seek(s.row(), *state).unwrap_or(s.count);
        moves[i] = ranks[slot].unwrap_or(NONE);
    }
    moves
}

// The game over the explored states.
// `WellFormed m` stays a clause: a record is blank before a text is read into it, which is not well formed, and a second type around a well-formed record would be opened wherever a field of it is read; the two lists stay beside the model, since C lends them apart.
fn tell(m: Model, attacker: &[u32], guardian: &[u32], facts: &[u8], found: Explored) -> Game
    requires { WellFormed m × OneVariable m × Surveyed m facts.now found }
    ensures { Telling (program_of m) (question_of m) attacker.now guardian.now result }
{
    let s = found.states;
    let listing = found.listing;
    let ours = game_moves::own(m, s, &found.moves.table, attacker);
    let theirs = game_moves::own(m, s, &found.moves.table, guardian);
    let met = game_stage::meeting(facts, m, s);
    let ranks = game_rounds::solve(&ours, &theirs, met, s.count);
    let moves = arranged(s, listing, ranks);
    let states = listing.states;
    Game {
        states,
        moves,
        count: listing.count,
    }
}

// Explores a well-formed model and tells the game, or that there are too many states; it leaves the work bytes zero.
fn explored(m: Model, attacker: &[u32], guardian: &[u32], work: &mut [u8]) -> Result<Game, Refusal>
    requires { WellFormed m × (limit.work ≤ length work.old) × (faulted (program_of m) attacker.now guardian.now ≡ false) × OneVariable m }
    ensures { Settles (program_of m) (question_of m) attacker.now guardian.now work.old result work.new }
{
    let mut facts = [0u8; ROOM];
    calls::wipe(work);
    let found = search::explore(&mut facts, m).ok_or(CROWDED)?;
    Ok(tell(m, attacker, guardian, &facts, found))
}

// The game of a well-formed model; a refused list and another form of the question leave the work bytes as they are.
pub fn decide(
    m: Model,
    attacker: &[u32],
    guardian: &[u32],
    work: &mut [u8],
) -> Result<Game, Refusal>
    requires { WellFormed m × (limit.work ≤ length work.old) }
    ensures { Settles (program_of m) (question_of m) attacker.now guardian.now work.old result work.new }
{
    if game_lists::faulty(m, attacker) || game_lists::faulty(m, guardian) {
        return Err(Row::Moves.refusal());
    }
    if !game_lists::single(m) {
        return Err(Row::Question.refusal());
    }
    explored(m, attacker, guardian, work)
}
