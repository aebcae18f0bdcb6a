// One line of a hand-in, without its byte 10. Each reader takes what is left of the line.
#![tactic(auto)]

ghost use Rattle.std.specs.Prelude.{◌≡◌, MatchOption, if◌then◌else◌, ◌+◌, ◌-◌, ◌*◌, ◌≤◌};
ghost use Rattle.std.proofs.Math.Option.{none, some};
ghost use Rattle.limits.specs.Limits as limit;
ghost use Rattle.model.specs.declared.Place.TheVariants.{Meeting};
ghost use Rattle.model.specs.Places.{numeral};
ghost use Rattle.grammar.specs.Bytes.{bytes};
ghost use Rattle.grammar.specs.Shapes.{after, whole};
ghost use Rattle.handin_lines.specs.Lines.{verdict, below, nothing, states_rest, atomic_rest, step_rest, meet_rest, said_by};
ghost use Rattle.handin_lines.specs.Found.{cut, DigitsEnd, NumberEnd, BelowEnd, object, last, met, is_silent, number_said, clear};

use limits::{NONE, OBJECTS};
use model::{Place, number_of};
use text_scan::{at_byte, same_words, word_end};

// A number, and what is left of the line behind it.
#[derive(Clone, Copy)]
struct Number<'a> {
    value: u32,
    rest: &'a [u8],
}

// From this number on all are alike.
const LARGE: u32 = 8_388_608;

// What is left of the line behind these bytes, if they are next.
// It stays a function beside `strip_prefix`: its one proof joins the library's law with the grammar's `after` for all that ask for a first word.
fn behind<'a>(line: &'a [u8], bytes: &[u8]) -> Option<&'a [u8]>
    ensures { MatchOption result (after bytes.now line.now ≡ none) (λ rest. after bytes.now line.now ≡ some rest.now) }
{
    line.strip_prefix(bytes)
}

// Whether the line ends with the bracket that is next.
fn ends(line: &[u8]) -> bool
    ensures { result ≡ last (after (bytes ")") line.now) }
{
    same_words(line, b")")
}

// Whether words are next, up to the end of the line.
// The walk stays a `while`: a word begins where the one before it ends, and a `for` over as many steps as bytes are left would count what nothing reads.
fn is_words(line: &[u8]) -> bool
    ensures { whole (atomic_rest line.now) ≡ (if result then some nothing else none) }
{
    let mut left = line;
    while at_byte(left, 0, b' ') {
        let e = word_end(left, 1);
        if e == 1 {
            return false;
        }
        left = &left[e..];
    }
    ends(left)
}

// One digit more.
fn add_digit(value: u32, b: u8) -> u32
    requires { (value ≤ 8388608) × (48 ≤ b) × (b ≤ 57) }
    ensures { result ≡ cut (value * 10 + (b - 48)) }
{
    (value * 10 + (b - b'0') as u32).min(LARGE)
}

// The digits that are next.
// The loop stays beside `position` and `fold`: the closure of `fold` would need a contract that says that the number so far is at most LARGE.
fn read_digits(line: &[u8]) -> Number<'_>
    ensures { DigitsEnd line.now result }
{
    let mut value = 0;
    for (i, b) in line.iter().enumerate() {
        match *b {
            b @ b'0'..=b'9' => value = add_digit(value, b),
            _ => {
                return Number {
                    value,
                    rest: &line[i..],
                };
            }
        }
    }
    Number { value, rest: &[] }
}

// The numeral that is next: none of more than one digit begins with 0.
fn read_number(line: &[u8]) -> Option<Number<'_>>
    ensures { NumberEnd line.now result }
{
    let r = read_digits(line);
    let digits = line.len() - r.rest.len();
    if digits == 0 {
        return None;
    }
    if digits != 1 && line[0] == b'0' {
        return None;
    }
    Some(r)
}

// The number below n that is next.
fn read_below(line: &[u8], n: u32) -> Option<Number<'_>>
    requires { n ≤ 8388608 }
    ensures { BelowEnd n (below n line.now) result }
{
    read_number(line).filter(|r| r.value < n)
}

// The object that is next in a bracket.
fn read_object(line: &[u8]) -> Option<Number<'_>>
    ensures { BelowEnd limit.objects (object line.now) result }
{
    let rest = behind(line, b" ")?;
    read_below(rest, OBJECTS as u32)
}

// Whether a number is next, and the bracket that ends the line.
fn is_number(line: &[u8]) -> bool
    ensures { whole (states_rest line.now) ≡ (if result then some nothing else none) }
{
    read_number(line).is_some_and(|n| ends(n.rest))
}

// The number of the place, if the line ends with the bracket that is next.
fn end_place(line: &[u8], p: Place) -> Option<u32>
    ensures { result ≡ met line.now (numeral p) }
{
    ends(line).then_some(number_of(p))
}

// The number of the place that is left of a `step` line after its first word.
fn read_step(line: &[u8]) -> Option<u32>
    ensures { result ≡ number_said (whole (step_rest line.now)) }
{
    let n = read_below(line, LARGE)?;
    let o = read_object(n.rest)?;
    end_place(
        o.rest,
        Place::Step {
            line: n.value,
            object: o.value,
        },
    )
}

// The number of the meeting of these objects, if the line ends with the bracket that is next.
fn end_meeting(line: &[u8], stage: u32, first: u32, second: u32, third: u32) -> Option<u32>
    ensures { result ≡ met line.now (numeral (Meeting stage first second third)) }
{
    end_place(
        line,
        Place::Meeting {
            stage,
            first,
            second,
            third,
        },
    )
}

// The number of the place that is left of a `meet` line after its first word.
// 255 stays for no object: the place's number is written into the run table that C lends.
fn read_meeting(line: &[u8]) -> Option<u32>
    ensures { result ≡ number_said (whole (meet_rest line.now)) }
{
    let n = read_below(line, 128)?;
    let Some(a) = read_object(n.rest) else {
        return end_meeting(n.rest, n.value, NONE, NONE, NONE);
    };
    let Some(b) = read_object(a.rest) else {
        return end_meeting(a.rest, n.value, a.value, NONE, NONE);
    };
    let Some(c) = read_object(b.rest) else {
        return end_meeting(b.rest, n.value, a.value, b.value, NONE);
    };
    end_meeting(c.rest, n.value, a.value, b.value, c.value)
}

// Whether a line after the first says nothing.
pub fn says_nothing(line: &[u8]) -> bool
    ensures { result ≡ is_silent (said_by line.now) }
{
    behind(line, b"(states ").is_some_and(is_number)
        || behind(line, b"(atomic").is_some_and(is_words)
}

// The number of the place that a line after the first says.
pub fn read_place(line: &[u8]) -> Option<u32>
    ensures { result ≡ number_said (said_by line.now) }
{
    if let Some(rest) = behind(line, b"(step ") {
        return read_step(rest);
    }
    if let Some(rest) = behind(line, b"(meet ") {
        return read_meeting(rest);
    }
    None
}

// Whether the first line says yes, if it can be read.
// The tests stay beside a `match` over byte strings: its proof was tried and did not close: it has a goal for each byte in which the line can differ from the four, more than forty in place of six.
pub fn read_verdict(line: &[u8]) -> Option<bool>
    ensures { result ≡ clear (verdict line.now) }
{
    if same_words(line, b"yes") || same_words(line, b"(verdict reached)") {
        return Some(true);
    }
    if same_words(line, b"no") || same_words(line, b"(verdict unreached)") {
        return Some(false);
    }
    None
}
