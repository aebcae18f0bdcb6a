// The model record of a text at its beginning, and with the declared names at its end.
#![tactic(auto)]

ghost use Rattle.std.specs.Prelude.{◌≡◌};
ghost use Rattle.text_opening.specs.Openings.{blank as blank_record, fitted};

use limits::{CARRIED, CLAUSES, DECLARED, LITERALS, NONE, STAGES, VARIABLES};
use model::{Action, Clause, Model, Name, Relations, Stage};
use std::array;
use text_names::Declared;

// A record without clauses and stages.
pub fn blank() -> Model
    ensures { result ≡ blank_record }
{
    let clause = Clause {
        action: Action::New { set: 0 },
        line: 0,
        first: 0,
        count: 0,
        variables: 0,
    };
    let stage = Stage {
        first: 0,
        count: 0,
        variables: 0,
        numbers: [0u32; VARIABLES],
    };
    let relations = Relations {
        codes: [0u32; DECLARED],
        count: 0,
    };
    let name = Name { start: 0, len: 0 };
    Model {
        relations,
        names: [name; DECLARED],
        clauses: [clause; CLAUSES],
        clausecount: 0,
        literals: [0u32; LITERALS],
        literalcount: 0,
        stages: [stage; STAGES],
        stagecount: 0,
        carried: [NONE; CARRIED],
        lines: 0,
    }
}

// The record gets the declared names and the number of lines.
pub fn fit(m: &mut Model, d: Declared, n: u32)
    ensures { m.new ≡ fitted m.old d n }
{
    m.relations = Relations {
        codes: array::from_fn(|i| d.names[i].code),
        count: d.count,
    };
    m.names = array::from_fn(|i| Name {
        start: d.names[i].start,
        len: d.names[i].len,
    });
    m.lines = n;
}
