// What is refused of a game: the list of a side's lines, and the form of the question.
#![tactic(auto)]

ghost use Rattle.std.specs.Prelude.{◌≡◌, ◌↔◌, true};
ghost use Rattle.semantics.specs.Models.{Body, line as line_at};
ghost use Rattle.model.specs.Records.{line_of, program_of};
ghost use Rattle.model.specs.WellFormed.{WellFormed};
ghost use Rattle.game_lists.specs.Lists.{is_next, strange as names_strange, faulty as is_faulty, OneVariable};

use model::{Action, Model};

// The lines of a side at most.
const MOST: usize = 10;

// Is it the action of a `next` line?
fn relabels(action: Action) -> bool
    ensures { (b : Body) → result ≡ is_next (line_of action b) }
{
    matches!(action, Action::Next { .. })
}

// Does a `next` line stand on the line of that number?
// That the model is well formed stays a clause: a record is blank before a text is read into it, which is not well formed, and a second type around a well-formed record would be opened wherever a field of it is read.
fn next_line(m: Model, line: u32) -> bool
    requires { WellFormed m }
    ensures { result ≡ is_next (line_at (program_of m) line) }
{
    m.clause_on(line).is_some_and(|c| relabels(c.action))
}

// Does the list name a line that is no `next` line?
fn strange(m: Model, list: &[u32]) -> bool
    requires { WellFormed m }
    ensures { result ≡ names_strange (program_of m) list.now }
{
    list.iter().any(|line| !next_line(m, *line))
}

// Is the list of a side's lines refused?
pub fn faulty(m: Model, list: &[u32]) -> bool
    requires { WellFormed m }
    ensures { result ≡ is_faulty (program_of m) list.now }
{
    list.len() > MOST || strange(m, list)
}

// Has the question one stage with one variable?
pub fn single(m: Model) -> bool
    requires { WellFormed m }
    ensures { (result ≡ true) ↔ OneVariable m }
{
    m.stagecount == 1 && m.stages[0].variables == 1
}
