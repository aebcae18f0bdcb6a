// The lines that make the found states, read back from each state to the one that it came from.
#![tactic(auto)]

ghost use Rattle.std.specs.Prelude.{◌≡◌, ◌+◌, ◌≤◌, ◌<◌, length};
ghost use Rattle.limits.specs.Limits as limit;
ghost use Rattle.semantics.specs.Models.{Body, line as line_at};
ghost use Rattle.model.specs.Records.{program_of, line_of};
ghost use Rattle.model.specs.WellFormed.{WellFormed};
ghost use Rattle.search_states.specs.States.{Proper, Discovered};
ghost use Rattle.witness_table.specs.Runs.{backwards};
ghost use Rattle.witness_lineage.specs.Lineage.{is_new, lines_to, making, building, Born, Ancestry, Makes};

use limits::ATOMIC;
use model::{Action, Model, Place};
use search_states::States;

// Does the clause create an object?
fn creating(a: Action) -> bool
    ensures { (b : Body) → result ≡ is_new (line_of a b) }
{
    matches!(a, Action::New { .. })
}

// Does a `new` line stand on the line of that number?
// That the model is well formed stays a clause, as at `firsts`.
fn creates(m: &Model, line: u32) -> bool
    requires { WellFormed m.now }
    ensures { result ≡ is_new (line_at (program_of m.now) line) }
{
    m.clause_on(line).is_some_and(|c| creating(c.action))
}

// Which of the found states a `new` line made.
// That the model is well formed and the states are proper stays in clauses: a record is blank before a text is read into it, which is not well formed, and the states, whose count some ten crates read as a field, would be handed out by methods behind an `impl Model`.
fn firsts(m: Model, s: States) -> [bool; ATOMIC]
    requires { WellFormed m × Proper s }
    ensures { Born m s result }
{
    let mut born = [false; ATOMIC];
    for (i, arrival) in s.arrivals[..s.count].iter().enumerate() {
        born[i] = creates(&m, arrival.line);
    }
    born
}

// Writes the places by which the object is made with the state, the last first, from index k on. Returns the index behind them.
// The index stays beside the table, as in `witness_meetings`.
fn trace(run: &mut [u32], s: &States, born: &[bool], state: usize, object: u32, k: usize) -> usize
    requires { ((m : Model) × Ancestry m s.now born.now × Makes m s.now state k run.old) × (object < limit.objects) }
    ensures { (m : Model) → Ancestry m s.now born.now → Makes m s.now state k run.old → (result ≡ k + length (making m s.now object state)) × (run.new ≡ backwards run.old k (making m s.now object state)) }
{
    let mut i = state;
    let mut at = k;
    // The loop stays: it goes back to a state that a `new` line made, which no number says before.
    loop {
        let arrival = s.arrivals[i];
        run[at] = model::number_of(Place::Step {
            line: arrival.line,
            object,
        });
        at += 1;
        if born[i] {
            return at;
        }
        i = arrival.origin as usize;
    }
}

// Writes the places by which the object is made with the state, the last first, from index k on. Returns the index behind them.
pub fn make(run: &mut [u32], m: Model, s: States, state: usize, object: u32, k: usize) -> usize
    requires { WellFormed m × Proper s × Discovered (program_of m) s × (state < s.count) × (object < limit.objects) × (k + length (lines_to m s state) ≤ length run.old) }
    ensures { (result ≡ k + length (making m s object state)) × (run.new ≡ backwards run.old k (making m s object state)) }
{
    let born = firsts(m, s);
    trace(run, &s, &born, state, object, k)
}

// Writes the places that make one object of each state behind those that are there, the last first, from index k on. Returns the index behind them.
pub fn build(run: &mut [u32], m: Model, s: States, base: u32, k: usize) -> usize
    requires { WellFormed m × Proper s × Discovered (program_of m) s × (base + s.count ≤ limit.objects) × (k + length (building m s base s.count) ≤ length run.old) }
    ensures { (result ≡ k + length (building m s base s.count)) × (run.new ≡ backwards run.old k (building m s base s.count)) }
{
    let born = firsts(m, s);
    let mut at = k;
    for n in (0..s.count).rev() {
        let object = base + n as u32;
        at = trace(run, &s, &born, n, object, at);
    }
    at
}
