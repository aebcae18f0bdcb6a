// What the two calls over a list of lines share: the text is read, the list is looked at, and each choice of its lines is decided.
#![tactic(auto)]

ghost use Rattle.std.specs.Prelude.{◌≡◌, false};
ghost use Rattle.model.specs.Records.{program_of, question_of};
ghost use Rattle.model.specs.WellFormed.{WellFormed};
ghost use Rattle.striking.specs.Striking.{faulty};
ghost use Rattle.strike_calls.specs.Choices.{Chooses, Decides};

use calls::CROWDED;
use limits::WORK;
use model::Model;
use rows::{Refusal, Row};
use strike_list::Lines;
use strike_table::Table;

// The lines of a list in rising order, and what is said of each choice of them.
#[derive(Clone, Copy)]
pub struct Choices {
    pub lines: Lines,
    pub table: Table,
}

// Decides every choice of a good list, where not too many states are reachable.
fn choose(m: Model, list: &[u32]) -> Result<Choices, Refusal>
    requires { WellFormed m × (faulty (program_of m) list.now ≡ false) }
    ensures { Chooses (program_of m) (question_of m) list.now result }
{
    let lines = strike_list::rising(m, list);
    let table = strike_table::fill(m, lines).ok_or(CROWDED)?;
    Ok(Choices { lines, table })
}

// Reads a text and a list of lines, and decides every choice of them; a refusal of the text or of the list leaves the work area as it is, and after all else the work bytes are zero.
pub fn decide(text: &[u8], list: &[u32], work: &mut [u8]) -> Result<Choices, Refusal>
    ensures { Decides text.now list.now work.old result work.new }
{
    let m = text::accept(text, work.len() < WORK, false)?;
    if strike_list::faulty(m, list) {
        return Err(Row::Lines.refusal());
    }
    calls::wipe(work);
    choose(m, list)
}
