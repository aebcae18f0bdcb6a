// The program: reads a text from standard input and writes its listing to standard output.
#![tactic(auto)]

ghost use Rattle.std.specs.Prelude.{◌≤◌, length, take, IfOk};
ghost use Rattle.limits.specs.Limits as limit;
ghost use Rattle.listing.specs.Report.{size};
ghost use Rattle.eon.specs.Output.{IsPrefixLen, Ready, Shows, Output};

use analyzer_verdict::{Analysis, Answer};
use limits::{RUN, TEXT, WORK};
use model::Model;
use std::io;
use std::io::{ErrorKind, Print, Read, Write};

// One byte more than a text may have, so that a longer one is refused by its first bytes.
const INPUT: usize = TEXT + 1;

// Reads until the buffer is full or the input ends, and says how many bytes were read.
// The loop stays: a reader may give fewer bytes than are asked for, until it gives none.
// The program's own error stays: with `?` it would be whatever error the reader gave, and the program is to end as it did.
fn read_input<R: Read>(source: &mut R, text: &mut [u8]) -> io::Result<usize>
    ensures { IfOk result (λ count. count ≤ length text.new) }
{
    let mut done = 0;
    while done < text.len() {
        match source.read(&mut text[done..]) {
            Err(_) => return Err(io::Error::new(ErrorKind::Other, "read")),
            Ok(0) => return Ok(done),
            Ok(n) => done += n,
        }
    }
    Ok(done)
}

// Writes the listing of an analysis into the slice, and says how many bytes it has.
fn list(out: &mut [u8], text: &[u8], m: &Model, a: &Analysis, run: &[u32]) -> usize
    requires { Ready text.now m.now a.now.states a.now.count run.now a.now.answer × (size ≤ length out.old) }
    ensures { Shows text.now m.now a.now.states a.now.count run.now a.now.answer out.old result out.new }
{
    match a.answer {
        Answer::Reached { places, .. } => listing::put_listing(
            out,
            text,
            m,
            true,
            &a.states[..a.count],
            &run[..places],
        ),
        Answer::Unreached => {
            listing::put_listing(out, text, m, false, &a.states[..a.count], &[])
        }
        Answer::Refused { number, line } => listing::put_refusal(out, number, line),
    }
}

// Analyzes the text and writes what the program is to write into the slice; says how many bytes that is.
fn report(text: &[u8], work: &mut [u8], run: &mut [u32], out: &mut [u8]) -> usize
    requires { (limit.work ≤ length work.old) × (limit.run ≤ length run.old) × (size ≤ length out.old) }
    ensures { Output text.now work.old run.old work.new run.new (take result out.new) × IsPrefixLen result out.new }
{
    let analysis = analyzer::analyze(text, work, run);
    match text::read(text) {
        Ok(m) => list(out, text, &m, &analysis, run),
        Err(refusal) => listing::put_refusal(out, refusal.row.number(), refusal.line),
    }
}

// Writes the listing of the text.
fn answer(rt: &impl Print, text: &[u8]) -> io::Result<()> {
    let mut work = [0u8; WORK];
    let mut run = [0u32; RUN];
    let mut out = [0u8; listing::SIZE];
    let n = report(text, &mut work, &mut run, &mut out);
    io::writer(rt).write_all(&out[..n])
}

fn main(rt: HostRuntime) -> io::Result<()> {
    let mut text = [0u8; INPUT];
    let count = read_input(&mut rt.reader(), &mut text)?;
    answer(&rt, &text[..count])
}
