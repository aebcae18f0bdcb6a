// Which lines to strike, for C and Rust: the answer as a number, the lines as a row of cells (include/eon.h).
#![tactic(auto)]

ghost use Rattle.std.specs.Prelude.{◌≡◌};
ghost use Rattle.exports_cure.specs.Codes.{coded as code_of, cells as cells_of, Few};
ghost use Rattle.exports_cure.specs.Calls.{Advised};

use rows::Refusal;
use strike_list::{Lines, MOST};
use words::Kind;

// The number of an answer.
// It stays a function and no `From`: neither a `Result` nor `u64` is a type of this crate.
fn coded(advice: Result<Option<Lines>, Refusal>) -> u64
    requires { Few advice }
    ensures { result ≡ code_of advice }
{
    match advice {
        Ok(Some(l)) => words::word(Kind::Strike, l.count as u64),
        Ok(None) => words::word(Kind::NoChoice, 0),
        Err(r) => words::refused(r),
    }
}

// The cells beside an answer.
fn cells(advice: Result<Option<Lines>, Refusal>) -> [u32; MOST]
    ensures { result ≡ cells_of advice }
{
    if let Ok(Some(l)) = advice {
        l.lines
    } else {
        [0; MOST]
    }
}

// Finds the fewest of the listed lines to strike.
#[unsafe(no_mangle)]
pub extern "C" fn eon_cure(text: &[u8], list: &[u32], work: &mut [u8], out: &mut [u32; MOST]) -> u64
    ensures { Advised text.now list.now work.old result work.new out.new }
{
    let advice = cure::cure(text, list, work);
    let lines = cells(advice);
    *out = lines;
    coded(advice)
}
