// The shortest way between two atomic states, for C and Rust: the answer as a number (include/eon.h).
#![tactic(auto)]

ghost use Rattle.std.specs.Prelude.{◌≡◌};
ghost use Rattle.exports_way.specs.Codes.{coded as code_of, Few};
ghost use Rattle.exports_way.specs.Calls.{Looks};

use rows::Refusal;
use words::Kind;

// The number of an answer.
// It stays a function and no `From`: neither a `Result` nor `u64` is a type of this crate.
fn coded(steps: Result<Option<usize>, Refusal>) -> u64
    requires { Few steps }
    ensures { result ≡ code_of steps }
{
    match steps {
        Ok(Some(n)) => words::word(Kind::Way, n as u64),
        Ok(None) => words::word(Kind::NoWay, 0),
        Err(r) => words::refused(r),
    }
}

// Finds the fewest steps by which an object gets from one state to the other.
#[unsafe(no_mangle)]
pub extern "C" fn eon_way(text: &[u8], from: u32, to: u32, work: &mut [u8], run: &mut [u32]) -> u64
    ensures { Looks text.now from to work.old run.old result work.new run.new }
{
    let answer = shortest::way(text, from, to, work, run);
    coded(answer)
}
