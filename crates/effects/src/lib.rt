// What a line makes of an object: the state that a `new` line creates it with, or that a `next` line gives it.
#![tactic(auto)]

ghost use Rattle.std.specs.Prelude.{◌≡◌};
ghost use Rattle.semantics.specs.Models.{line as line_in};
ghost use Rattle.model.specs.Records.{program_of};
ghost use Rattle.model.specs.WellFormed.{WellFormed};
ghost use Rattle.grammar.specs.Texts.{outcome};
ghost use Rattle.effects.specs.Effects.{action_made, made as made_on, effect_at};

use model::{Action, Model};

// The number of what a clause makes of an object in a state.
// The kinds 2 and 3 stay numbers, as in `lines::describe`: each stands here once, beside the action whose kind it is.
fn made(action: Action, state: u32) -> u64
    ensures { result ≡ action_made action state }
{
    match action {
        Action::Rule { .. } => 0,
        Action::New { set } => 2 * 4_294_967_296 + set as u64,
        Action::Next { plus, minus } => {
            3 * 4_294_967_296 + labels::relabel(state, plus, minus) as u64
        }
    }
}

// The number of what a line of a model makes of an object in a state.
fn on_line(m: &Model, line: u32, state: u32) -> u64
    requires { WellFormed m.now }
    ensures { result ≡ made_on (line_in (program_of m.now) line) state }
{
    m.clause_on(line).map_or(0, |c| made(c.action, state))
}

// What a line of an accepted text makes of an object in a state: 2 × 2^32 and the state of an object that a `new` line creates, 3 × 2^32 and the state that a `next` line gives it; 0 otherwise.
// 0 stays for nothing made: this is the word that C is told.
pub fn effect(text: &[u8], line: u32, state: u32) -> u64
    ensures { result ≡ effect_at (outcome text.now) line state }
{
    text::read(text).map_or(0, |m| on_line(&m, line, state))
}
