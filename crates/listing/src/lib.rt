// The listing of a verdict, or the line of a refusal, written into a lent slice.
#![tactic(auto)]

ghost use Rattle.std.specs.Prelude.{◌++◌, ◌+◌, ◌*◌, ◌≤◌, length};
ghost use Rattle.model.specs.Places.{place_of};
ghost use Rattle.model.specs.WellFormed.{GoodRelations};
ghost use Rattle.listing_bytes.specs.Writing.{Writes, WritesLine};
ghost use Rattle.listing_lines.specs.Lines.{verdict_line, states_line, atomic_line, line_for, Named, refused_line, longest};
ghost use Rattle.listing.specs.Report.{state_lines, run_lines, size, Listable, WritesListing};

use limits::HANDIN;
use listing_lines::{LONGEST, atomic_line, place_line, refused_line, states_line, verdict_line};
use model::Model;

// Bytes that have room for every listing: a listing can be handed in.
pub const SIZE: usize = HANDIN;

// Writes the lines of the verdict and of the number of states.
fn put_summary(out: &mut [u8], reached: bool, n: u32) -> usize
    requires { 2 * longest ≤ length out.old }
    ensures { Writes out.old 0 (verdict_line reached ++ states_line n) result out.new × (result ≤ 40) }
{
    let first = verdict_line(out, reached);
    let second = states_line(&mut out[first..], n);
    first + second
}

// Writes the line of an atomic state from place `at` on.
// The text and the model stay two parameters: a struct of both would be made in `put_listing` for this one line and taken apart again where a name is found, with the same two facts as its invariant.
fn put_state(out: &mut [u8], at: usize, text: &[u8], m: &Model, set: u32) -> usize
    requires { GoodRelations m.now × Named text.now m.now × (at + longest ≤ length out.old) }
    ensures { Writes out.old at (atomic_line text.now m.now set) result out.new × (result ≤ at + longest) }
{
    let end = at + LONGEST;
    let n = atomic_line(&mut out[at..end], text, m, set);
    at + n
}

// Writes the lines of the states from place `at` on.
fn put_states(out: &mut [u8], at: usize, text: &[u8], m: &Model, states: &[u32]) -> usize
    requires { GoodRelations m.now × Named text.now m.now × (at + length states.now * longest ≤ length out.old) }
    ensures { Writes out.old at (state_lines text.now m.now states.now) result out.new × (result ≤ at + length states.now * longest) }
{
    let mut next = at;
    for set in states {
        next = put_state(out, next, text, m, *set);
    }
    next
}

// Writes the line of the place that n stands for from place `at` on.
fn put_place(out: &mut [u8], at: usize, n: u32) -> usize
    requires { at + longest ≤ length out.old }
    ensures { Writes out.old at (line_for (place_of n)) result out.new × (result ≤ at + 24) }
{
    let k = place_line(&mut out[at..], n);
    at + k
}

// Writes the lines of the places of the run from place `at` on.
fn put_run(out: &mut [u8], at: usize, run: &[u32]) -> usize
    requires { at + length run.now * 24 + longest ≤ length out.old }
    ensures { Writes out.old at (run_lines run.now) result out.new }
{
    let mut next = at;
    for place in run {
        next = put_place(out, next, *place);
    }
    next
}

// Writes the listing of a verdict, of the states and of the places of the run, and says how many bytes it has.
// The flag stays beside the run: the listing of any verdict with any run is promised, and an `Option` of the run would ask more of callers.
pub fn put_listing(
    out: &mut [u8],
    text: &[u8],
    m: &Model,
    reached: bool,
    states: &[u32],
    run: &[u32],
) -> usize
    requires { Listable text.now m.now states.now run.now × (size ≤ length out.old) }
    ensures { WritesListing out.old text.now m.now reached states.now run.now result out.new }
{
    let summary = put_summary(out, reached, states.len() as u32);
    let listed = put_states(out, summary, text, m, states);
    put_run(out, listed, run)
}

// Writes the line of a refusal, and says how many bytes it has.
// The number stays in place of the row: it is printed, and the analyzer's answer has no row.
pub fn put_refusal(out: &mut [u8], number: u32, line: u32) -> usize
    requires { size ≤ length out.old }
    ensures { WritesLine out.old (refused_line number line) result out.new }
{
    refused_line(out, number, line)
}
