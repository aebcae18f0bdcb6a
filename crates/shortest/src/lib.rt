// The shortest way between two atomic states of a text.
#![tactic(auto)]

ghost use Rattle.shortest.specs.Ways.{Asks};

use rows::Refusal;

// Reads a text, and gives the fewest steps by which an object gets from one state to the other, if it does; a refusal of the text leaves both buffers as they are.
pub fn way(
    text: &[u8],
    from: u32,
    to: u32,
    work: &mut [u8],
    run: &mut [u32],
) -> Result<Option<usize>, Refusal>
    ensures { Asks text.now from to work.old run.old result work.new run.new }
{
    let m = text::accept(text, calls::short(work.len(), run.len()), false)?;
    shortest_answer::decide(m, from, to, work, run)
}
