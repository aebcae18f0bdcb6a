// How much of the policy matters, for C and Rust: the answer as a number, the counts as a row of cells (include/eon.h).
#![tactic(auto)]

ghost use Rattle.std.specs.Prelude.{◌≡◌};
ghost use Rattle.exports_tally.specs.Codes.{coded as code_of};
ghost use Rattle.exports_tally.specs.Calls.{Counted};

use rows::Refusal;
use tally::Count;
use words::Kind;

// The cells beside an answer: the reached and the unreached choices, the reached share and its remainder.
const COUNTS: usize = 4;

// The number of an answer.
// It stays a function and no `From`: neither a `Result` nor `u64` is a type of this crate.
fn coded(count: Result<Count, Refusal>) -> u64
    ensures { result ≡ code_of count }
{
    match count {
        Ok(_) => words::word(Kind::Counted, 0),
        Err(r) => words::refused(r),
    }
}

// Counts the choices of the listed lines.
#[unsafe(no_mangle)]
pub extern "C" fn eon_tally(
    text: &[u8],
    list: &[u32],
    work: &mut [u8],
    out: &mut [u32; COUNTS],
) -> u64
    ensures { Counted text.now list.now work.old result work.new out.new }
{
    let count = tally::tally(text, list, work);
    *out = count.map_or(
        [0; COUNTS],
        |c| [c.reached, c.unreached, c.share, c.remainder],
    );
    coded(count)
}
