// What can still become of an object, asked of a text.
#![tactic(auto)]

ghost use Rattle.from_here.specs.Asking.{Asks};

use analyzer_verdict::Analysis;
use limits::RUN;

// Reads a text, and asks what can still become of an object after the places; a refusal of the text leaves both buffers as they are.
pub fn from_here(
    text: &[u8],
    places: &[u32],
    object: u32,
    work: &mut [u8],
    run: &mut [u32],
) -> Analysis
    ensures { Asks text.now places.now object work.old run.old result work.new run.new }
{
    let short = calls::short(work.len(), run.len());
    match text::accept(text, short, places.len() > RUN) {
        Ok(m) => from_here_verdict::decide(m, places, object, work, run),
        Err(refusal) => analyzer_verdict::refuse(refusal.row.number(), refusal.line),
    }
}
