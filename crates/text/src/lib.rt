// The bracket text: every byte list becomes an accepted model, or one listed refusal with its line.
#![tactic(auto)]

ghost use Rattle.std.specs.Prelude.{◌≡◌, [], ℕ, ◌≤◌, length, Ok, Err, MatchResult};
ghost use Rattle.limits.specs.Limits as limit;
ghost use Rattle.grammar.specs.Bytes.{lines};
ghost use Rattle.grammar.specs.Texts.{read_lines, outcome};
ghost use Rattle.calls.specs.Calls.{called};
ghost use Rattle.text_opening.specs.Openings.{blank};
ghost use Rattle.text.specs.Reading.{Fills, Reads};
ghost use Rattle.text.specs.Reached.{Reached, onwards, AskLine};

use model::Model;
use rows::{Refusal, Row};
use text_names::Declared;

// The answer to a line, with the line's number at a refusal.
fn on_line(answer: Result<(), Row>, line: u32) -> Result<(), Refusal>
    ensures { MatchResult answer (λ _. result ≡ Ok tt) (λ row. result ≡ Err (record { row = row; line = line })) }
{
    answer.map_err(|row| Refusal { row, line })
}

// The `ask` line, whose first word ends at `ask` and the line at e, and whether a line follows it.
fn read_question(
    text: &[u8],
    ask: usize,
    e: usize,
    d: Declared,
    m: &mut Model,
    line: u32,
) -> Result<(), Refusal>
    requires { (length text.now ≤ limit.text) × ((at : ℕ) × Reached text.now at line d m.old × AskLine text.now at ask e) }
    ensures { (at : ℕ) → Reached text.now at line d m.old → AskLine text.now at ask e → Fills (onwards text.now at line d m.old) text.now result m.new }
{
    text_opening::fit(m, d, line);
    on_line(text_ask::read_ask(&text[..e], d, ask, m), line)?;
    if e + 1 < text.len() {
        return Err(Refusal {
            row: Row::End,
            line: line + 1,
        });
    }
    Ok(())
}

// Line by line, up to the first refusal or the `ask` line, into a blank record.
fn read_lines(text: &[u8], m: &mut Model) -> Result<(), Refusal>
    requires { (length text.now ≤ limit.text) × (m.old ≡ blank) }
    ensures { Fills (read_lines 1 [] [] (lines text.now)) text.now result m.new }
{
    let mut d = text_names::none();
    let mut at = 0;
    let mut line: u32 = 1;
    // The loop stays a `while`: names keep their place in the whole text, and a bad line has no end, so that an iterator would give a place and a Result for each line, to be taken apart here.
    while at < text.len() {
        let e = text_scan::line_end(text, at).ok_or(Refusal {
            row: Row::Byte,
            line,
        })?;
        if let Some(ask) = text_scan::past_bytes(&text[..e], at, b"(ask ") {
            return read_question(text, ask, e, d, m, line);
        }
        on_line(text_lines::read_line(&text[..e], at, &mut d, m, line), line)?;
        at = e + 1;
        line += 1;
    }
    Err(Refusal {
        row: Row::End,
        line,
    })
}

// Reads a text for a call, which may be refused before the lines: by a lent buffer that is too short, or by a run that is too long.
// The two flags stay: calls lend different buffers, and each tests its own.
pub fn accept(text: &[u8], short: bool, long: bool) -> Result<Model, Refusal>
    ensures { Reads (called text.now short long) text.now result }
{
    calls::early(text.len(), short, long)?;
    let mut m = text_opening::blank();
    read_lines(text, &mut m)?;
    Ok(m)
}

// Reads a text, for a call that lends nothing.
pub fn read(text: &[u8]) -> Result<Model, Refusal>
    ensures { Reads (outcome text.now) text.now result }
{
    accept(text, false, false)
}
