// The `ask` line after its first word.
#![tactic(auto)]

ghost use Rattle.std.specs.Prelude.{◌≡◌, List, ◌+◌, ◌≤◌, ◌<◌, length, drop, MatchOption, IfErr};
ghost use Rattle.std.proofs.Math.Option.{none};
ghost use Rattle.limits.specs.Limits as limit;
ghost use Rattle.grammar.specs.Forms as forms;
ghost use Rattle.grammar.specs.Shapes.{rest, stage, ask_rest};
ghost use Rattle.text_names.specs.Names as names;
ghost use Rattle.model.specs.declared.Model as models;
ghost use Rattle.text_stages.specs.Questions as questions;
ghost use Rattle.text_ask.specs.Asks.{StagesEnd, finished, AskEnd};

use limits::{ASKED, CARRIED, STAGES};
use model::Model;
use rows::Row;
use text_names::Declared;
use text_rows::Taken;
use text_scan::past;
use text_scope::Scope;

// The stages of a question behind its first.
const FURTHER: usize = STAGES - 1;

// The variables of the stages or their lowest row, and where the stages end.
type Stages = Taken<Result<Scope<ASKED>, Row>>;

// At most n stages, each after a space, up to the closing bracket, are added to those before.
// The loop stays beside `text_rows::read_row`: a stage is written to the record that is lent, and with it as a parameter of that loop's trait the readers of names and literals would be lent a record that they do not use.
fn read_stages(
    text: &[u8],
    d: Declared,
    at: usize,
    s: Result<Scope<ASKED>, Row>,
    n: usize,
    m: &mut Model,
) -> Option<Stages>
    requires { (at ≤ length text.now) × (length text.now < 4294967296) × names.Valid text.now d
        × ((m₀ : models.Model) × (qs : List (List forms.Literal)) × (length qs + n ≤ limit.stages) × questions.Holds text.now (names.declared_of text.now d) m₀ qs s m.old) }
    ensures { MatchOption result (rest stage n (drop at text.now) ≡ none) (λ r. StagesEnd text.now (names.declared_of text.now d) at n s m.old r m.new) × questions.Aside m.old m.new }
{
    let mut table = s;
    let mut i = at;
    for _ in 0..n {
        if let Some(end) = past(text, i, b')') {
            return Some(Taken { kept: table, end });
        }
        let b = text_bodies::read_stage(text, d, past(text, i, b' ')?)?;
        table = text_stages::add(text, table, b, m);
        i = b.end;
    }
    let end = past(text, i, b')')?;
    Some(Taken { kept: table, end })
}

// The cells of the carried variables, or the row of the line: 11 after 6 to 9.
fn finish(s: Result<Scope<ASKED>, Row>) -> Result<[u32; CARRIED], Row>
    ensures { result ≡ finished s }
{
    text_carried::carried(s?).ok_or(Row::Carried)
}

// `(ask (L ..) (L ..))`, in a record without stages. The stages are read into a copy, so that the record is as it was after a refusal.
pub fn read_ask(text: &[u8], d: Declared, at: usize, m: &mut Model) -> Result<(), Row>
    requires { (at ≤ length text.now) × (0 < at) × (length text.now < 4294967296) × names.Valid text.now d × questions.Empty m.old }
    ensures { AskEnd (names.declared_of text.now d) m.old (ask_rest (drop at text.now)) result m.new × questions.Aside m.old m.new × IfErr result (λ _. m.new ≡ m.old) }
{
    let b = text_bodies::read_stage(text, d, at).ok_or(Row::Shape)?;
    let mut asked = *m;
    let s = text_scope::empty();
    let f = text_stages::add(text, Ok(s), b, &mut asked);
    let r = read_stages(text, d, b.end, f, FURTHER, &mut asked).ok_or(Row::Shape)?;
    if r.end != text.len() {
        return Err(Row::Shape);
    }
    asked.carried = finish(r.kept)?;
    *m = asked;
    Ok(())
}
