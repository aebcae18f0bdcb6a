// The words by which C is told what a call answers (include/eon.h).
#![tactic(auto)]

ghost use Rattle.std.specs.Prelude.{◌≡◌, ◌<◌};
ghost use Rattle.rows.specs.Rows.{number_of};
ghost use Rattle.words.specs.Words.{kind_number, code, refusal as refusal_code, by_number as told_by_number};

use rows::Refusal;

// What kind of answer it is, by the names of include/eon.h.
#[derive(Clone, Copy)]
pub enum Kind {
    Unreached = 0,
    Reached = 1,
    Refused = 2,
    Kept = 3,
    Broken = 4,
    Unreadable = 5,
    Right = 6,
    Other = 7,
    Breaks = 8,
    SaysNo = 9,
    SaysYes = 10,
    Strike = 11,
    NoChoice = 12,
    Counted = 13,
    Written = 14,
    Told = 15,
    Way = 16,
    NoWay = 17,
}

// A refusal by a number, a row's or any other, and a line.
// The number stays in place of the row: `codes`, `reason_codes` and `asbestos_desk` promise the word of any number.
#[derive(Clone, Copy)]
pub struct Numbered {
    pub number: u32,
    pub line: u32,
}

// The word of an answer: kind × 2^32 + value.
pub fn word(kind: Kind, value: u64) -> u64
    requires { value < 9223372036854775808 }
    ensures { result ≡ code (kind_number kind) value }
{
    kind as u64 * 4_294_967_296 + value
}

// The word of a refusal by its number and line.
// The number stays in place of the row: the analyzer's answer has it so, as document 01 writes it.
pub fn refusal(number: u32, line: u32) -> u64
    ensures { result ≡ refusal_code number line }
{
    word(Kind::Refused, number as u64 * 65_536 + line as u64)
}

// The word of a refusal.
// It stays a function and no `From`: neither `Refusal` nor `u64` is a type of this crate.
pub fn refused(r: Refusal) -> u64
    ensures { result ≡ refusal_code (number_of r.row) r.line }
{
    refusal(r.row.number(), r.line)
}

// An answer whose refusal is told by its number.
pub fn by_number<T>(answer: Result<T, Refusal>) -> Result<T, Numbered>
    ensures { result ≡ told_by_number answer }
{
    match answer {
        Ok(said) => Ok(said),
        Err(r) => Err(Numbered {
            number: r.row.number(),
            line: r.line,
        }),
    }
}
