// The mark of a hand-in to a text.
#![tactic(auto)]

ghost use Rattle.std.specs.Prelude.{◌≡◌, List, ◌≤◌, length};
ghost use Rattle.limits.specs.Limits as limit;
ghost use Rattle.semantics.specs.Runs.{Place};
ghost use Rattle.model.specs.Records.{program_of, question_of};
ghost use Rattle.model.specs.WellFormed.{WellFormed};
ghost use Rattle.handin.specs.Handins.{says-yes, reading};
ghost use Rattle.marker_worth.specs.Worth.{Worth};
ghost use Rattle.marker.specs.Marking.{narrow, Leaves, Marks};

use handin::Unreadable;
use limits::RUN;
use marker_worth::Mark;
use model::Model;
use rows::Refusal;

// Is the work area too short, or one of the two tables?
fn short(bytes: usize, places: usize, standing: usize) -> bool
    ensures { result ≡ narrow bytes places standing }
{
    calls::short(bytes, places) || standing < RUN
}

// The mark of a yes: its run is written into the table, and replayed.
// The hand-in and the three buffers stay apart, since C lends them so.
fn mark_yes(
    m: Model,
    handin: &[u8],
    yes: handin::Run,
    work: &mut [u8],
    run: &mut [u32],
    stood: &mut [u32],
) -> Result<Mark, Refusal>
    requires { WellFormed m × (limit.work ≤ length work.old) × (limit.run ≤ length run.old) × (limit.run ≤ length stood.old) × ((ps : List Place) × (reading handin.now ≡ says-yes yes.first ps) × (yes.places ≡ length ps)) }
    ensures { Worth (program_of m) (question_of m) (reading handin.now) result × Leaves (program_of m) (question_of m) (reading handin.now) work.old run.old stood.old work.new run.new stood.new }
{
    handin::write(handin, run);
    marker_worth::mark_run(m, yes.first, &run[..yes.places], work, stood)
}

// The mark over a model, by what the hand-in says.
fn mark_model(
    m: Model,
    handin: &[u8],
    work: &mut [u8],
    run: &mut [u32],
    stood: &mut [u32],
) -> Result<Mark, Refusal>
    requires { WellFormed m × (limit.work ≤ length work.old) × (limit.run ≤ length run.old) × (limit.run ≤ length stood.old) }
    ensures { Worth (program_of m) (question_of m) (reading handin.now) result × Leaves (program_of m) (question_of m) (reading handin.now) work.old run.old stood.old work.new run.new stood.new }
{
    let said = handin::read(handin);
    match said {
        Ok(Some(yes)) => mark_yes(m, handin, yes, work, run, stood),
        Ok(None) => marker_worth::mark_no(m, work),
        Err(Unreadable { line }) => Ok(Mark::Unreadable { line }),
    }
}

// Reads a text, and marks a hand-in to it; a refusal other than 15 and an unreadable hand-in leave the buffers as they are.
pub fn mark(
    text: &[u8],
    handin: &[u8],
    work: &mut [u8],
    run: &mut [u32],
    stood: &mut [u32],
) -> Result<Mark, Refusal>
    ensures { Marks text.now handin.now work.old run.old stood.old result work.new run.new stood.new }
{
    let short = short(work.len(), run.len(), stood.len());
    let m = text::accept(text, short, false)?;
    mark_model(m, handin, work, run, stood)
}
