// The bytes of each line of the listing.
#![tactic(auto)]

ghost use Rattle.std.specs.Prelude.{[], ◌∷◌, map, ◌+◌, ◌≤◌, ◌*◌, length};
ghost use Rattle.limits.specs.Limits as limit;
ghost use Rattle.semantics.specs.Runs.{step, meet};
ghost use Rattle.model.specs.Places.{objects, place_of};
ghost use Rattle.model.specs.WellFormed.{GoodRelations};
ghost use Rattle.listing_bytes.specs.Numerals.{decimal};
ghost use Rattle.listing_bytes.specs.Forms.{items};
ghost use Rattle.listing_bytes.specs.Writing.{Writes, WritesLine};
ghost use Rattle.listing_lines.specs.Lines.{verdict_line, states_line, Named, names_in, atomic_line, place_line, line_for, refused_line, longest};

use labels::has;
use limits::{NAME, NONE, STATES};
use listing_bytes::{put_bytes, put_end, put_name, put_number, put_pair};
use model::{Model, Place, place_of};

// How many bytes the longest line has.
pub const LONGEST: usize = 9 + STATES * (1 + NAME);

// Writes the names of the set's relations as items, in order of declaration.
// It stays beside `Display`, as `listing_bytes::put_bytes` does.
// The loop stays over numbers: the contract counts the relations by them, and over `zip` of the codes and the names the invariant would also say what is left of both, and which of them ends first.
fn put_names(out: &mut [u8], at: usize, text: &[u8], m: &Model, set: u32) -> usize
    requires { GoodRelations m.now × Named text.now m.now × (at + limit.states * (1 + limit.name) ≤ length out.old) }
    ensures { Writes out.old at (items (names_in text.now m.now set m.now.relations.count)) result out.new × (result ≤ at + limit.states * (1 + limit.name)) }
{
    let mut next = at;
    for i in 0..m.relations.count {
        if has(set, m.relations.codes[i]) {
            let name = m.names[i];
            let start = name.start as usize;
            let end = start + name.len as usize;
            next = put_name(out, next, &text[start..end]);
        }
    }
    next
}

// Writes the objects of a meeting as items, up to the first 255.
// 255 stays for no object: a place has it from its number in the run table that C lends.
// The three tests stay in place of a loop: a place has its objects as three fields, of which an array would be made here for one walk that ends at the first 255.
fn put_objects(out: &mut [u8], at: usize, first: u32, second: u32, third: u32) -> usize
    requires { at + 33 ≤ length out.old }
    ensures { Writes out.old at (items (map decimal (objects (first ∷ second ∷ third ∷ [])))) result out.new }
{
    if first == NONE {
        return at;
    }
    let one = put_number(out, at, first);
    if second == NONE {
        return one;
    }
    let two = put_number(out, one, second);
    if third == NONE {
        return two;
    }
    put_number(out, two, third)
}

// Writes the line of the verdict.
// That the slice is long enough stays a clause: an array type would ask more of callers than so many bytes at least, and `listing` lends what is left of its own slice.
pub fn verdict_line(out: &mut [u8], reached: bool) -> usize
    requires { longest ≤ length out.old }
    ensures { WritesLine out.old (verdict_line reached) result out.new }
{
    if reached {
        put_bytes(out, 0, b"(verdict reached)\n")
    } else {
        put_bytes(out, 0, b"(verdict unreached)\n")
    }
}

// Writes the line of the number of reachable atomic states.
// It stays beside `Display`, as `listing_bytes::put_numeral` does.
pub fn states_line(out: &mut [u8], n: u32) -> usize
    requires { longest ≤ length out.old }
    ensures { WritesLine out.old (states_line n) result out.new }
{
    let word = put_bytes(out, 0, b"(states");
    let number = put_number(out, word, n);
    put_end(out, number)
}

// Writes the line of an atomic state.
// It stays beside `Display`, as `listing_bytes::put_bytes` does.
pub fn atomic_line(out: &mut [u8], text: &[u8], m: &Model, set: u32) -> usize
    requires { GoodRelations m.now × Named text.now m.now × (longest ≤ length out.old) }
    ensures { WritesLine out.old (atomic_line text.now m.now set) result out.new }
{
    let word = put_bytes(out, 0, b"(atomic");
    let names = put_names(out, word, text, m, set);
    put_end(out, names)
}

// Writes the line of a step.
// It stays beside `refused_line`: one function for both would take the word and ask for its room in a clause, and each would still be a call of it under its own contract.
// It stays beside `Display`, as `listing_bytes::put_numeral` does.
fn step_line(out: &mut [u8], line: u32, object: u32) -> usize
    requires { longest ≤ length out.old }
    ensures { WritesLine out.old (place_line (step line object)) result out.new }
{
    let word = put_bytes(out, 0, b"(step");
    put_pair(out, word, line, object)
}

// Writes the line of a meeting; from the first 255 on there is no object.
// It stays beside `Display`, as `listing_bytes::put_numeral` does.
// 255 stays for no object: a place has it from its number in the run table that C lends.
fn meet_line(out: &mut [u8], stage: u32, first: u32, second: u32, third: u32) -> usize
    requires { longest ≤ length out.old }
    ensures { WritesLine out.old (place_line (meet stage (objects (first ∷ second ∷ third ∷ [])))) result out.new }
{
    let word = put_bytes(out, 0, b"(meet");
    let number = put_number(out, word, stage);
    let named = put_objects(out, number, first, second, third);
    put_end(out, named)
}

// Writes the line of the place that n stands for, and nothing where it stands for none.
// It stays beside a `Display` of a place, as `listing_bytes::put_numeral` does.
pub fn place_line(out: &mut [u8], n: u32) -> usize
    requires { longest ≤ length out.old }
    ensures { WritesLine out.old (line_for (place_of n)) result out.new }
{
    match place_of(n) {
        Place::Step { line, object } => step_line(out, line, object),
        Place::Meeting {
            stage,
            first,
            second,
            third,
        } => meet_line(out, stage, first, second, third),
        Place::Malformed => 0,
    }
}

// Writes the line of a refusal.
// It stays beside a `Display` of a refusal, as `listing_bytes::put_numeral` does.
// The number stays in place of the row: it is printed, and the analyzer's answer has no row.
pub fn refused_line(out: &mut [u8], number: u32, line: u32) -> usize
    requires { longest ≤ length out.old }
    ensures { WritesLine out.old (refused_line number line) result out.new }
{
    let word = put_bytes(out, 0, b"(refused");
    put_pair(out, word, number, line)
}
