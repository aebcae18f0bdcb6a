// The game by rounds: the numbers of a board's positions, round by round, until a round gives none.
#![tactic(auto)]

ghost use Rattle.std.specs.Prelude.{Some, None, ◌≡◌, if◌then◌else◌, suc, ◌≤◌};
ghost use Rattle.limits.specs.Limits as limit;
ghost use Rattle.facts_bits.specs.Bits.{bit_at};
ghost use Rattle.games.specs.Rounds.{any, every, before};
ghost use Rattle.game_rounds.specs.Board.{slots, Inside, Fits, rank_of, sooner, ready_by, side_of, Turned, Begun, Solves};

use facts_bits::{BYTES, WIDTH};
use limits::LISTED;
use std::array;

// The bytes of a matrix of moves, with a row for each slot of a search.
// The size stays here beside that of search_ways: a board is played without a search, whose crates are not named here.
const MATRIX: usize = LISTED * BYTES;

// The two sides of a game.
#[derive(Clone, Copy)]
enum Side {
    Attacker,
    Guardian,
}

// Is the number one of a round before?
fn sooner(rank: Option<u32>, round: u32) -> bool
    ensures { result ≡ before round (rank_of rank) }
{
    rank.is_some_and(|number| number < round)
}

// Has some slot of row e a number below the round's?
// The facts on n and e stay clauses: e counts up to n within a turn, so that a struct of both would be made anew for each slot.
// The parameters stay, here, in `all_sooner` and in `ready`: a struct of the side, its moves, their bound, the other side's numbers and the round would be made for each turn, twice in `solve`, and each contract would read the five through it.
// `0..n + 1` stays here and in `all_sooner`: the library says what a range without its end yields, by which `any` and `all` are read, and says it of no range with its end.
fn some_sooner(
    moves: &[u8; MATRIX],
    e: usize,
    n: usize,
    ranks: &[Option<u32>; LISTED],
    round: u32,
) -> bool
    requires { (n ≤ limit.atomic) × (e ≤ n) }
    ensures { result ≡ any (sooner ranks.now round) (slots moves.now e (suc n)) }
{
    (0..n + 1).any(|t| facts_bits::get(moves, e * WIDTH + t) && sooner(ranks[t], round))
}

// Has each slot of row e a number below the round's?
fn all_sooner(
    moves: &[u8; MATRIX],
    e: usize,
    n: usize,
    ranks: &[Option<u32>; LISTED],
    round: u32,
) -> bool
    requires { (n ≤ limit.atomic) × (e ≤ n) }
    ensures { result ≡ every (sooner ranks.now round) (slots moves.now e (suc n)) }
{
    (0..n + 1).all(|t| !facts_bits::get(moves, e * WIDTH + t) || sooner(ranks[t], round))
}

// Can the side get a number at slot e in this round? A side without a move passes.
// The `match` over the two sides stays: their tests are `any` and `all` over one row, and a closure for the test would go through `solve`, `turn` and this one to be called here alone.
fn ready(
    side: Side,
    moves: &[u8; MATRIX],
    e: usize,
    n: usize,
    ranks: &[Option<u32>; LISTED],
    round: u32,
) -> bool
    requires { (n ≤ limit.atomic) × (e ≤ n) × Inside moves.now n }
    ensures { result ≡ ready_by (side_of side) moves.now e n ranks.now round }
{
    if facts_bits::vacant(facts_bits::row(moves, e)) {
        return sooner(ranks[e], round);
    }
    match side {
        Side::Attacker => some_sooner(moves, e, n, ranks, round),
        Side::Guardian => all_sooner(moves, e, n, ranks, round),
    }
}

// One side's part of a round: each slot without a number that can get one gets the round's. Whether one did.
fn turn(
    side: Side,
    moves: &[u8; MATRIX],
    n: usize,
    ranks: &mut [Option<u32>; LISTED],
    others: &[Option<u32>; LISTED],
    round: u32,
) -> bool
    requires { (n ≤ limit.atomic) × Inside moves.now n }
    ensures { Turned (side_of side) moves.now n ranks.old others.now round ranks.new result }
{
    let mut changed = false;
    // The cells stay written by their number, for the reason at `facts_bits::widen`.
    for e in 0..=n {
        if ranks[e].is_none() && ready(side, moves, e, n, others, round) {
            ranks[e] = Some(round);
            changed = true;
        }
    }
    changed
}

// The number of a slot before the first round, which those have that meet the question.
fn number(met: &[u8; BYTES], n: usize, e: usize) -> Option<u32>
    requires { n ≤ limit.atomic }
    ensures { e ≤ n → result ≡ (if bit_at met.now e then Some 0 else None) }
{
    (e <= n && facts_bits::get(met, e)).then_some(0)
}

// The numbers before the first round.
fn outset(met: [u8; BYTES], n: usize) -> [Option<u32>; LISTED]
    requires { n ≤ limit.atomic }
    ensures { Begun met n result }
{
    array::from_fn(|e| number(&met, n, e))
}

// The attacker's numbers on a board, for the slots 0 to n: rounds until one gives no number.
pub fn solve(
    ours: &[u8; MATRIX],
    theirs: &[u8; MATRIX],
    met: [u8; BYTES],
    n: usize,
) -> [Option<u32>; LISTED]
    requires { Fits ours.now theirs.now met n }
    ensures { Solves ours.now theirs.now met n result }
{
    let mut first = outset(met, n);
    let mut second = first;
    let mut round: u32 = 1;
    // The loop stays: it ends when a round gives no number, after no number of rounds that is known before; a `for` over `1..` would count the rounds, and need an `unreachable!()` behind it.
    loop {
        let moved = turn(Side::Attacker, ours, n, &mut first, &second, round);
        let answered = turn(Side::Guardian, theirs, n, &mut second, &first, round);
        if !moved && !answered {
            return first;
        }
        round += 1;
    }
}
