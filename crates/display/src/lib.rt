// What is declared, and what stands on a line, for display.
#![tactic(auto)]

ghost use Rattle.std.specs.Prelude.{◌≡◌, ◌<◌, slice_index};
ghost use Rattle.limits.specs.Limits as limit;
ghost use Rattle.model.specs.Records.{name_of};
ghost use Rattle.grammar.specs.Texts.{outcome};
ghost use Rattle.display_shapes.specs.Rows.{Shown};
ghost use Rattle.display.specs.Shown.{relation_at, FindsRelation, literal_at, variable_at};

use display_parts::locate;
use display_shapes::{Literal, Span, item_at};
use display_variables::variable_of;
use model::Model;

// A declared relation: its name begins at byte `from` of the text and has `size` bytes.
#[derive(Clone, Copy)]
pub struct Declaration {
    pub from: usize,
    pub size: usize,
    pub code: u32,
}

// Declared relation i of a model.
fn recorded(m: &Model, i: usize) -> Declaration
    requires { i < limit.declared }
    ensures { (result.from ≡ (name_of m.now i).start) × (result.size ≡ (name_of m.now i).len) × (result.code ≡ slice_index m.now.relations.codes i) }
{
    let name = m.names[i];
    Declaration {
        from: name.start as usize,
        size: name.len as usize,
        code: m.relations.codes[i],
    }
}

// Declared relation i of an accepted text, from 0.
pub fn relation(text: &[u8], i: usize) -> Option<Declaration>
    ensures { FindsRelation text.now (relation_at (outcome text.now) i) result }
{
    let m = text::read(text).ok()?;
    if m.relations.count <= i {
        return None;
    }
    Some(recorded(&m, i))
}

// Literal k, from 0, of a line's clause, which is part 0, or of stage n of an `ask` line, from 1.
pub fn literal(line: &[u8], n: usize, k: usize) -> Option<Span>
    ensures { Shown line.now (literal_at line.now n k) result }
{
    let p = locate(line, n)?;
    item_at::<Literal>(line, p.body, k)
}

// Variable j, from 0, of that part in order of first appearance, those of a clause's head first.
pub fn variable(line: &[u8], n: usize, j: usize) -> Option<Span>
    ensures { Shown line.now (variable_at line.now n j) result }
{
    let p = locate(line, n)?;
    variable_of(line, p, j)
}
