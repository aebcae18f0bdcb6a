// The numbers of what is said of a run that was put to a text, and of the reason for which it breaks.
#![tactic(auto)]

ghost use Rattle.std.specs.Prelude.{◌≡◌, ◌<◌};
ghost use Rattle.reason_codes.specs.Codes.{reasoned as reason_code, explained as explanation_code};

use explain::Explanation;
use reasons::Reason;
use words::{Kind, Numbered};

// The number of a reason, and the place of the literal that is to blame.
// The numbers stay written out: a reason that carries a literal's place cannot be cast, and they stand nowhere else.
fn reasoned(reason: Reason) -> u64
    ensures { (result ≡ reason_code reason) × (result < 4096) }
{
    match reason {
        Reason::Ends => 0,
        Reason::Done => 256,
        Reason::NoLine => 512,
        Reason::NotNext => 768,
        Reason::NoObject => 1_024,
        Reason::OtherStage => 1_280,
        Reason::Variables => 1_536,
        Reason::Carried => 1_792,
        Reason::Literal { index } => 2_048 + index as u64 % 256,
    }
}

// The number of what is said of a run.
// It stays a function and no `From`: neither a `Result` nor `u64` is a type of this crate.
pub fn explained(x: Result<Explanation, Numbered>) -> u64
    ensures { result ≡ explanation_code x }
{
    match x {
        Ok(Explanation::Kept) => words::word(Kind::Kept, 0),
        Ok(Explanation::Broken { place, reason }) => {
            words::word(
                Kind::Broken,
                place as u64 % 65_536 * 65_536 + reasoned(reason),
            )
        }
        Err(r) => words::refusal(r.number, r.line),
    }
}
