// A desk for Asbestos labels: the text that it writes, and what an analysis of that text says.
#![tactic(auto)]

ghost use Rattle.std.specs.Prelude.{◌≡◌};
ghost use Rattle.asbestos_writer.specs.Writing.{kinds_of, Desks};
ghost use Rattle.asbestos_desk.specs.Codes.{code, ShortText};
ghost use Rattle.asbestos_desk.specs.Promise.{Keeps};

use asbestos_writer::CELLS;
use rows::Refusal;
use words::{Kind, Numbered};

// Writes the text for the first kinds, so many, the port level and the asked receive level, whose verdict is the one over messages; or refuses with 20.
pub fn write(
    out: &mut [u8],
    kinds: &[u32; CELLS],
    count: usize,
    port: u32,
    level: u32,
) -> Result<usize, Refusal>
    ensures { Desks (kinds_of kinds.now count) port level out.old result out.new × Keeps (kinds_of kinds.now count) port level result out.new }
{
    asbestos_writer::write_text(out, kinds, count, port, level)
}

// The number of an answer.
// It stays a function and no `From`: neither a `Result` nor `u64` is a type of this crate.
pub fn coded(answer: Result<usize, Numbered>) -> u64
    requires { ShortText answer }
    ensures { result ≡ code answer }
{
    match answer {
        Ok(length) => words::word(Kind::Written, length as u64),
        Err(r) => words::refusal(r.number, r.line),
    }
}
