// The stages of an `ask` line: each that is read is stored in the model record, and its variables are numbered.
#![tactic(auto)]

ghost use Rattle.std.specs.Prelude.{◌≡◌, ◌+◌, ◌≤◌, ◌<◌};
ghost use Rattle.limits.specs.Limits as limit;
ghost use Rattle.text_stages.specs.Questions.{with_stage, Addable, Added};

use limits::{ASKED, VARIABLES};
use model::{Model, Stage};
use rows::Row;
use text_bodies::Body;
use text_literals::Frame;
use text_scope::Scope;

// One stage more in the record, with the literals of the frame and the numbers of its variables.
// The three lines of a body stay written out here and in `text_record::add_clause`: a clause and a stage are records of their own with these fields, and what made the three would be taken apart field by field in both.
fn add_stage(m: &mut Model, f: Frame, numbers: [u32; VARIABLES])
    requires { (m.old.stagecount < limit.stages) × (m.old.literalcount + f.size ≤ limit.literals) × (f.size ≤ limit.body) × (f.scope.count ≤ limit.variables) }
    ensures { m.new ≡ with_stage m.old f numbers }
{
    let stage = Stage {
        first: m.literalcount,
        count: f.size,
        variables: f.scope.count as u32,
        numbers,
    };
    text_record::add_literals(m, f);
    m.stages[m.stagecount] = stage;
    m.stagecount += 1;
}

// One stage more in the record, and the variables with it, or the lowest row of the stages.
pub fn add(
    text: &[u8],
    s: Result<Scope<ASKED>, Row>,
    b: Body,
    m: &mut Model,
) -> Result<Scope<ASKED>, Row>
    requires { Addable text.now s m.old b }
    ensures { Added text.now s m.old b result m.new }
{
    let own = text_clauses::complete(b.kept);
    let (mut table, f) = text_faults::both(s, own)?;
    let numbers = text_carried::number(text, &mut table, f.scope);
    add_stage(m, f, numbers);
    Ok(table)
}
