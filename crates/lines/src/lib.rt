// The accepted lines, lent on as a row of clause records and read one at a time.
#![tactic(auto)]

ghost use Rattle.std.specs.Prelude.{◌≡◌, if◌then◌else◌, nat_lt, length, slice_index_or};
ghost use Rattle.grammar.specs.Texts.{outcome};
ghost use Rattle.lines.specs.Lines.{nothing, recorded, line_at};

use model::{Action, Clause};

// The line of a clause and what stands on it: line × 4, and 1 for a rule, 2 for a `new` line, 3 for a `next` line.
// The kinds stay numbers in the word that C is told: each stands here once, beside the action whose kind it is, and an enum of them would list the actions a second time.
fn describe(c: Clause) -> u64
    ensures { result ≡ recorded c }
{
    let line = c.line as u64 * 4;
    match c.action {
        Action::Rule { .. } => line + 1,
        Action::New { .. } => line + 2,
        Action::Next { .. } => line + 3,
    }
}

// Clause i of the row, from 0; 0 where there is none.
// 0 stays for no clause, as at `line`.
fn describe_at(row: &[Clause], i: usize) -> u64
    ensures { result ≡ (if nat_lt i (length row.now) then recorded (slice_index_or row.now i nothing) else 0) }
{
    row.get(i).map_or(0, |c| describe(*c))
}

// Clause i of an accepted text, from 0: its line and what stands on it; 0 where there is none.
// 0 stays for no clause: this is the word that C is told.
pub fn line(text: &[u8], i: usize) -> u64
    ensures { result ≡ line_at (outcome text.now) i }
{
    text::read(text).map_or(0, |m| describe_at(&m.clauses[..m.clausecount], i))
}
