// One line of the bracket text that is no `ask` line.
#![tactic(auto)]

ghost use Rattle.std.specs.Prelude.{◌≤◌, ◌<◌, length};
ghost use Rattle.semantics.specs.Models.{Program};
ghost use Rattle.text_names.specs.Names as names;
ghost use Rattle.text_declarations.specs.Declares.{Limited};
ghost use Rattle.text_record.specs.Stored as stored;
ghost use Rattle.text_lines.specs.Lines.{ClauseAt, ClauseRead, LineEnd};

use model::Model;
use rows::Row;
use text_clauses::Reading;
use text_names::Declared;
use text_scan::past_bytes;

// The clause of the line that is next, which declares nothing, up to the end of the text.
// The tests stay a chain, here and in `read_line`: each word has a reader of its own, and a table of words would need a `match` on the place found. The text and the place stay two parameters: `text_scan` says why.
fn read_clause(text: &[u8], at: usize, d: Declared, clauses: usize) -> Result<Reading, Row>
    requires { (at ≤ length text.now) × (length text.now < 4294967296) × names.Valid text.now d × ClauseAt text.now at }
    ensures { ClauseRead text.now at d clauses result }
{
    if let Some(end) = past_bytes(text, at, b"(rule ") {
        return text_clauses::read_rule(text, d, end, clauses);
    }
    if let Some(end) = past_bytes(text, at, b"(new ") {
        return text_clauses::read_new(text, d, end, clauses);
    }
    if let Some(end) = past_bytes(text, at, b"(next ") {
        return text_clauses::read_next(text, d, end, clauses);
    }
    Err(Row::Shape)
}

// The line that is next, up to the end of the text: its declaration or clause is added.
// The text and the place stay two parameters: `text_scan` says why.
pub fn read_line(
    text: &[u8],
    at: usize,
    d: &mut Declared,
    m: &mut Model,
    number: u32,
) -> Result<(), Row>
    requires { (at ≤ length text.now) × (length text.now < 4294967296) × names.Valid text.now d.old × Limited d.old × ((P : Program) × stored.Holds m.old P) }
    ensures { LineEnd text.now at d.old m.old number result d.new m.new }
{
    if let Some(end) = past_bytes(text, at, b"(state ") {
        *d = text_declarations::read_state(text, *d, end)?;
        return Ok(());
    }
    if let Some(end) = past_bytes(text, at, b"(rel ") {
        *d = text_declarations::read_rel(text, *d, end)?;
        return Ok(());
    }
    let r = read_clause(text, at, *d, m.clausecount)?;
    text_record::add_clause(m, number, r.action, r.frame);
    Ok(())
}
