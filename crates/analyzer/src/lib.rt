// The analysis of a text.
#![tactic(auto)]

ghost use Rattle.analyzer.specs.Analyzing.{Analyzes};

use analyzer_verdict::Analysis;

// Reads a text, and decides its model; a refusal of the text leaves both buffers as they are.
pub fn analyze(text: &[u8], work: &mut [u8], run: &mut [u32]) -> Analysis
    ensures { Analyzes text.now work.old run.old result work.new run.new }
{
    match text::accept(text, calls::short(work.len(), run.len()), false) {
        Ok(m) => analyzer_verdict::decide(m, work, run),
        Err(refusal) => analyzer_verdict::refuse(refusal.row.number(), refusal.line),
    }
}
