// Hand-ins: every byte list says no, or yes with a run, or is unreadable at a line.
#![tactic(auto)]

ghost use Rattle.std.specs.Prelude.{◌≡◌, true, false, List, [], ◌++◌, map, ℕ, ◌+◌, ◌≤◌, length, drop};
ghost use Rattle.std.specs.Iterator.{at_most};
ghost use Rattle.limits.specs.Limits as limit;
ghost use Rattle.semantics.specs.Runs.{Place};
ghost use Rattle.model.specs.Places.{number_of};
ghost use Rattle.grammar.specs.Bytes.{lines};
ghost use Rattle.handin.specs.Handins.{says-yes, onwards, preface, reading};
ghost use Rattle.handin.specs.Answers.{told, first_length, Gives, PrefaceEnd};

use handin_lines::{read_place, read_verdict, says_nothing};
use limits::{HANDIN, RUN};

// The run of a hand-in that says yes: so many places, the first on line `first`.
#[derive(Clone, Copy)]
pub struct Run {
    pub first: u32,
    pub places: usize,
}

// A hand-in that is unreadable at a line.
// 0 stays for no line, where the hand-in is too long: C is told it so.
#[derive(Clone, Copy)]
pub struct Unreadable {
    pub line: u32,
}

// The lines of the bytes that are left, each without its byte 10.
#[derive(Clone, Copy)]
struct Lines<'a> {
    left: &'a [u8],
}

impl<'a> Iterator for Lines<'a> {
    type Item = &'a [u8];

    ghost next_gives = { Gives };

    ghost remaining = { λ s. at_most (length s.left.now) };

    fn next(&mut self) -> Option<&'a [u8]> {
        let left = self.left;
        if left.is_empty() {
            return None;
        }
        let end = line_end(left);
        self.left = behind(left, end);
        Some(&left[..end])
    }
}

// The bytes from where a line begins, and its number.
#[derive(Clone, Copy)]
struct Start<'a> {
    left: &'a [u8],
    line: u32,
}

// Where the first line ends.
fn line_end(left: &[u8]) -> usize
    ensures { result ≡ first_length left.now }
{
    left.iter().position(|b| *b == b'\n').unwrap_or(left.len())
}

// The bytes behind the line that ends there.
fn behind(left: &[u8], end: usize) -> &[u8]
    ensures { result.now ≡ drop (end + 1) left.now }
{
    if end < left.len() {
        &left[end + 1..]
    } else {
        &[]
    }
}

// Past the lines that say nothing, from line 2 on.
// The bound on the bytes stays a clause: they are a slice, and a struct with the bound would be made of them for each of the three calls.
// The walk stays a `while`: the answer is what the iterator has left, and a `for` would hold the iterator, so that each line would be cut off the bytes a second time.
fn preface_end(left: &[u8]) -> Start<'_>
    requires { length left.now ≤ limit.handin }
    ensures { PrefaceEnd left.now result }
{
    let mut lines = Lines { left };
    let mut start = Start { left, line: 2 };
    while let Some(said) = lines.next() {
        if !says_nothing(said) {
            return start;
        }
        start = Start {
            left: lines.left,
            line: start.line + 1,
        };
    }
    start
}

// The places from line `first` on.
// The count stays by hand: it is the answer behind the last line, where `enumerate` has none left, and `count` would walk over the lines a second time.
fn read_places(left: &[u8], first: u32) -> Result<Option<Run>, Unreadable>
    requires { first ≤ limit.handin + 2 }
    ensures { result ≡ told (onwards first [] (lines left.now)) }
{
    let lines = Lines { left };
    let mut places = 0;
    for line in lines {
        if places == RUN || read_place(line).is_none() {
            return Err(Unreadable {
                line: first + places as u32,
            });
        }
        places += 1;
    }
    Ok(Some(Run { first, places }))
}

// The lines after a yes.
fn after_yes(left: &[u8]) -> Result<Option<Run>, Unreadable>
    requires { length left.now ≤ limit.handin }
    ensures { result ≡ told (preface true 2 (lines left.now)) }
{
    let s = preface_end(left);
    read_places(s.left, s.line)
}

// The lines after a no.
fn after_no(left: &[u8]) -> Result<Option<Run>, Unreadable>
    requires { length left.now ≤ limit.handin }
    ensures { result ≡ told (preface false 2 (lines left.now)) }
{
    let s = preface_end(left);
    if s.left.is_empty() {
        Ok(None)
    } else {
        Err(Unreadable { line: s.line })
    }
}

// Reads a hand-in: its size, its first line, and the others. A no is `Ok(None)`.
pub fn read(handin: &[u8]) -> Result<Option<Run>, Unreadable>
    ensures { result ≡ told (reading handin.now) }
{
    if HANDIN < handin.len() {
        return Err(Unreadable { line: 0 });
    }
    let mut lines = Lines { left: handin };
    match lines.next().and_then(read_verdict) {
        Some(true) => after_yes(lines.left),
        Some(false) => after_no(lines.left),
        None => Err(Unreadable { line: 1 }),
    }
}

// Writes the numbers of the places into the table.
// In a hand-in that says yes each line behind the preface is a place.
fn write_places(left: &[u8], run: &mut [u32])
    requires { (limit.run ≤ length run.old)
        × ((n first : ℕ) × (ps : List Place) × (onwards n [] (lines left.now) ≡ says-yes first ps)) }
    ensures { (n first : ℕ) (ps : List Place) → onwards n [] (lines left.now) ≡ says-yes first ps
        → run.new ≡ map number_of ps ++ drop (length ps) run.old }
{
    let lines = Lines { left };
    for (k, line) in lines.enumerate() {
        run[k] = read_place(line).unwrap();
    }
}

// Writes the numbers of the places of a hand-in that says yes into the table, from its first place on.
pub fn write(handin: &[u8], run: &mut [u32])
    requires { (limit.run ≤ length run.old) × ((first : ℕ) × (ps : List Place) × (reading handin.now ≡ says-yes first ps)) }
    ensures { (first : ℕ) (ps : List Place) → reading handin.now ≡ says-yes first ps
        → run.new ≡ map number_of ps ++ drop (length ps) run.old }
{
    let mut lines = Lines { left: handin };
    lines.next();
    let s = preface_end(lines.left);
    write_places(s.left, run);
}
