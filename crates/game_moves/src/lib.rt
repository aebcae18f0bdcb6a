// The moves of a side between the found states and the empty one, by the lines that it has.
#![tactic(auto)]

ghost use Rattle.std.specs.Prelude.{◌≤◌, ◌<◌, length};
ghost use Rattle.limits.specs.Limits as limit;
ghost use Rattle.semantics.specs.Walkers.{Whole};
ghost use Rattle.model.specs.declared.Action.TheVariants as action;
ghost use Rattle.model.specs.Records.{program_of};
ghost use Rattle.model.specs.WellFormed.{WellFormed};
ghost use Rattle.search_states.specs.States.{row, Proper};
ghost use Rattle.search_ways.specs.Moves.{Marks, With, CanTake};
ghost use Rattle.game_moves.specs.Own.{Own as OwnMoves, Goes};

use facts_bits::WIDTH;
use model::{Action, Clause, Model};
use search_states::States;
use search_ways::{MATRIX, TABLE};

// Marks where a `next` clause leads from each slot of its row of the table; a state without a slot is the empty one, whose slot is the one behind the last.
// It and `lead_clause` stay beside `lead_next` and `lead_clause` of search_ways, where the reason stands.
fn lead(
    states: &[u32],
    plus: u32,
    minus: u32,
    table: &[u8; TABLE],
    i: usize,
    moves: &mut [u8; MATRIX],
)
    requires { (length states.now ≤ limit.atomic) × (i < limit.clauses) }
    ensures { Marks moves.new (With moves.old (Goes table.now i states.now (action.Next plus minus))) }
{
    for (e, state) in states.iter().enumerate() {
        if facts_bits::get(table, i * WIDTH + e) {
            let led = labels::relabel(*state, plus, minus);
            let t = search_states::seek(states, led).unwrap_or(states.len());
            facts_bits::put(moves, e * WIDTH + t);
        }
    }
}

// Marks where a clause leads.
fn lead_clause(states: &[u32], c: Clause, table: &[u8; TABLE], i: usize, moves: &mut [u8; MATRIX])
    requires { (length states.now ≤ limit.atomic) × (i < limit.clauses) }
    ensures { Marks moves.new (With moves.old (Goes table.now i states.now c.action)) }
{
    if let Action::Next { plus, minus } = c.action {
        lead(states, plus, minus, table, i, moves);
    }
}

// The moves of a side that has the lines of a list.
pub fn own(m: Model, s: States, table: &[u8; TABLE], list: &[u32]) -> [u8; MATRIX]
    requires { WellFormed m × Proper s × Whole (program_of m) (row s) × Marks table.now (CanTake m s) }
    ensures { Marks result (OwnMoves (program_of m) (row s) list.now) }
{
    let states = s.row();
    let mut moves = [0u8; MATRIX];
    for (i, c) in m.clauses[..m.clausecount].iter().enumerate() {
        if list.contains(&c.line) {
            lead_clause(states, *c, table, i, &mut moves);
        }
    }
    moves
}
