// A desk for Asbestos labels: writes the bracket text for process kinds, a port level and an asked receive level.
#![tactic(auto)]

ghost use Rattle.std.specs.Prelude.{◌≡◌, ◌&&◌, [], ◌∷◌, ◌++◌, map, suc, ◌+◌, ◌≤◌, ◌<◌, length};
ghost use Rattle.limits.specs.Limits as limit;
ghost use Rattle.grammar.specs.Bytes.{bytes as quoted};
ghost use Rattle.listing_bytes.specs.Writing.{Writes};
ghost use Rattle.asbestos.specs.Messages.{levels, most, AllProper};
ghost use Rattle.asbestos_forms.specs.Forms.{born_form, entry_forms, row_forms, table_forms, asked_form, printed, text};
ghost use Rattle.asbestos_writer.specs.Parts.{levelled, receiving, marked, taken, passed, changed, exactly, Is};
ghost use Rattle.asbestos_writer.specs.Writing.{kind_at, kinds_of, is_level, all_proper, refuses, Desks};

use asbestos::{LEVELS, resulting};
use limits::TEXT;
use listing_bytes::{put_byte, put_bytes};
use rows::{Refusal, Row};

// At most so many kinds, each of three cells: its send level, its receive level, and its mark, 0 if it has none.
// 0 stays for no mark: C lends these cells.
const KINDS: usize = 18;

pub const CELLS: usize = 3 * KINDS;

// A kind, by its three cells.
// The mark stays a flag: a kind has it or not, whatever its levels are.
#[derive(Clone, Copy)]
struct Kind {
    send: u32,
    receive: u32,
    mark: bool,
}

// Kind i of the cells.
// Kind i stays read by its number: the law of `as_chunks` gives the cells by a recursion of its own, so that a lemma from it to `kind_at` would stand beside two loops that are no shorter.
fn kind_of(kinds: &[u32; CELLS], i: usize) -> Kind
    requires { i < most }
    ensures { Is result (kind_at kinds.now i) }
{
    Kind {
        send: kinds[3 * i],
        receive: kinds[3 * i + 1],
        mark: kinds[3 * i + 2] != 0,
    }
}

// Writes the bytes, and the digit of a level behind them.
// A level stays a number and the place a parameter: a type of levels would be made of a loop's number or of a cell of C by this very clause, to be taken apart for its digit, and each call answers the place of the next one.
// It and all that is written by it stay beside `Display`, as `listing_bytes::put_numeral` does: the slice that C lends has the room that each contract asks for.
fn put_level(out: &mut [u8], at: usize, bytes: &[u8], level: u32) -> usize
    requires { (level < levels) × (at + length bytes.now + 1 ≤ length out.old) }
    ensures { Writes out.old at (levelled bytes.now level) result out.new }
{
    let next = put_bytes(out, at, bytes);
    put_byte(out, next, b'0' + level as u8)
}

// Writes the second list of a `next` line, up to its end.
// The levels stay numbers and the place a parameter, as at `put_level`.
fn put_taken(out: &mut [u8], at: usize, a: u32, c: u32) -> usize
    requires { (a < levels) × (at + 5 ≤ length out.old) }
    ensures { Writes out.old at (taken a c) result out.new }
{
    if c == a {
        put_bytes(out, at, b") (")
    } else {
        put_level(out, at, b") (S", a)
    }
}

// Writes who receives and who sends in a `next` line, from the end of its second list on.
// The levels stay numbers and the place a parameter, as at `put_level`.
fn put_passed(out: &mut [u8], at: usize, a: u32, b: u32) -> usize
    requires { (a < levels) × (b < levels) × (at + 19 ≤ length out.old) }
    ensures { Writes out.old at (passed a b) result out.new }
{
    let receiver = put_level(out, at, b") (S", a);
    let may = put_level(out, receiver, b" x) (R", b);
    put_level(out, may, b" x) (S", b)
}

// Writes a `next` line with its first and last bytes.
fn put_next(out: &mut [u8], at: usize, first: &[u8], a: u32, b: u32, c: u32, last: &[u8]) -> usize
    requires { (a < levels) × (b < levels) × (c < levels) × (at + length first.now + 25 + length last.now ≤ length out.old) }
    ensures { Writes out.old at (changed first.now a b c last.now) result out.new }
{
    let added = put_level(out, at, first, c);
    let gone = put_taken(out, added, a, c);
    let passes = put_passed(out, gone, a, b);
    put_bytes(out, passes, last)
}

// Writes the lines of a table entry, for the receiver's send level a and the sender's b.
fn put_entry(out: &mut [u8], at: usize, a: u32, b: u32) -> usize
    requires { (a < levels) × (b < levels) × (at + 100 ≤ length out.old) }
    ensures { Writes out.old at (printed (entry_forms a b)) result out.new }
{
    let c = resulting(a, b);
    let marking = put_next(out, at, b"(next x (M S", a, b, c, b" y) (M y))\n");
    if c == a {
        return marking;
    }
    put_next(out, marking, b"(next x (S", a, b, c, b" y) (not (M y)))\n")
}

// Writes the lines of a row of the table, its columns up to the port level.
// The port level stays a number: a type of levels would be taken apart here at once, since it ends a loop over numbers.
fn put_row(out: &mut [u8], at: usize, port: u32, a: u32) -> usize
    requires { (port < levels) × (a < levels) × (at + 500 ≤ length out.old) }
    ensures { Writes out.old at (printed (row_forms port a)) result out.new }
{
    let mut next = at;
    for b in 0..=port {
        next = put_entry(out, next, a, b);
    }
    next
}

// Writes the lines of the table.
fn put_table(out: &mut [u8], at: usize, port: u32) -> usize
    requires { (port < levels) × (at + 2500 ≤ length out.old) }
    ensures { Writes out.old at (printed (table_forms port)) result out.new }
{
    let mut next = at;
    for a in 0..LEVELS {
        next = put_row(out, next, port, a);
    }
    next
}

// Writes the labels of a receive level.
fn put_receiving(out: &mut [u8], at: usize, receive: u32) -> usize
    requires { (receive < levels) × (at + 15 ≤ length out.old) }
    ensures { Writes out.old at (receiving (suc receive)) result out.new }
{
    let mut next = at;
    for k in 0..=receive {
        next = put_level(out, next, b" R", k);
    }
    next
}

// Writes the end of a kind's line, after its levels.
fn put_marked(out: &mut [u8], at: usize, mark: bool) -> usize
    requires { at + 5 ≤ length out.old }
    ensures { Writes out.old at (marked mark) result out.new }
{
    if mark {
        put_bytes(out, at, b" M))\n")
    } else {
        put_bytes(out, at, b"))\n")
    }
}

// Writes the line of a kind.
fn put_kind(out: &mut [u8], at: usize, k: Kind) -> usize
    requires { (k.send < levels) × (k.receive < levels) × (at + 28 ≤ length out.old) }
    ensures { Writes out.old at (levelled (quoted "(new (S") k.send ++ receiving (suc k.receive) ++ marked k.mark) result out.new }
{
    let sends = put_level(out, at, b"(new (S", k.send);
    let receives = put_receiving(out, sends, k.receive);
    put_marked(out, receives, k.mark)
}

// Writes the lines of the first kinds, so many.
// The cells and their count stay two parameters: of the cells that count the number of kinds would be a third of the length, a division by 3 in the contract and in the loop.
fn put_kinds(out: &mut [u8], at: usize, kinds: &[u32; CELLS], count: usize) -> usize
    requires { (count ≤ most) × AllProper (kinds_of kinds.now count) × (at + 504 ≤ length out.old) }
    ensures { Writes out.old at (printed (map born_form (kinds_of kinds.now count))) result out.new }
{
    let mut next = at;
    for i in 0..count {
        next = put_kind(out, next, kind_of(kinds, i));
    }
    next
}

// Writes the end of the question, after its receive level.
fn put_exactly(out: &mut [u8], at: usize, level: u32) -> usize
    requires { (level < levels) × (at + 19 ≤ length out.old) }
    ensures { Writes out.old at (exactly level) result out.new }
{
    if level == 4 {
        return put_bytes(out, at, b" x)))\n");
    }
    let above = put_level(out, at, b" x) (not (R", level + 1);
    put_bytes(out, above, b" x))))\n")
}

// Writes the line of the question.
fn put_question(out: &mut [u8], at: usize, level: u32) -> usize
    requires { (level < levels) × (at + 34 ≤ length out.old) }
    ensures { Writes out.old at (printed (asked_form level ∷ [])) result out.new }
{
    let least = put_level(out, at, b"(ask ((M x) (R", level);
    put_exactly(out, least, level)
}

// The levels of a kind are among the five.
fn is_proper(k: Kind) -> bool
    ensures { result ≡ (is_level k.send && is_level k.receive) }
{
    k.send < LEVELS && k.receive < LEVELS
}

// The levels of the first kinds, so many, are among the five.
fn all_proper(kinds: &[u32; CELLS], count: usize) -> bool
    requires { count ≤ most }
    ensures { result ≡ all_proper (kinds_of kinds.now count) }
{
    (0..count).all(|i| is_proper(kind_of(kinds, i)))
}

// The call is refused, with so many bytes of output.
// The cells, their count and the two levels stay parameters: these are what C gives, checked here.
// The tests stay one after the other: joined by `||` five of them make one goal of nested alternatives, whose proof did not close.
fn refused(kinds: &[u32; CELLS], count: usize, port: u32, level: u32, room: usize) -> bool
    ensures { result ≡ refuses (kinds_of kinds.now count) port level room }
{
    if count == 0 {
        return true;
    }
    if count > KINDS {
        return true;
    }
    if port >= LEVELS {
        return true;
    }
    if level >= LEVELS {
        return true;
    }
    if room < TEXT {
        return true;
    }
    !all_proper(kinds, count)
}

// Writes all lines of the text.
fn put_text(out: &mut [u8], kinds: &[u32; CELLS], count: usize, port: u32, level: u32) -> usize
    requires { (count ≤ most) × AllProper (kinds_of kinds.now count) × (port < levels) × (level < levels) × (limit.text ≤ length out.old) }
    ensures { Writes out.old 0 (text (kinds_of kinds.now count) port level) result out.new }
{
    let states = put_bytes(
        out,
        0,
        b"(state S0)\n(state S1)\n(state S2)\n(state S3)\n(state S4)\n(state R0)\n(state R1)\n(state R2)\n(state R3)\n(state R4)\n(state M)\n",
    );
    let born = put_kinds(out, states, kinds, count);
    let table = put_table(out, born, port);
    put_question(out, table, level)
}

// Writes the text for the first kinds, so many, the port level and the asked receive level to the front of the output, and answers its length; or refuses with 20, and leaves the output as it is.
pub fn write_text(
    out: &mut [u8],
    kinds: &[u32; CELLS],
    count: usize,
    port: u32,
    level: u32,
) -> Result<usize, Refusal>
    ensures { Desks (kinds_of kinds.now count) port level out.old result out.new }
{
    if refused(kinds, count, port, level, out.len()) {
        return Err(Row::Processes.refusal());
    }
    Ok(put_text(out, kinds, count, port, level))
}
