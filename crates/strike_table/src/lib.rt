// The table of all choices of lines to strike: each is decided by a search, or settled by one that is decided.
#![tactic(auto)]

ghost use Rattle.std.specs.Prelude.{◌≡◌, ◌^◌, ◌≤◌, ◌<◌, length};
ghost use Rattle.limits.specs.Limits as limit;
ghost use Rattle.semantics.specs.Questions.{Verdict};
ghost use Rattle.semantics.specs.Steps.{MoreThan};
ghost use Rattle.model.specs.Records.{program_of, question_of};
ghost use Rattle.model.specs.WellFormed.{WellFormed};
ghost use Rattle.facts_heads.specs.Heads.{room};
ghost use Rattle.striking.specs.Striking.{strike, most};
ghost use Rattle.striking.specs.Numbers.{numbered};
ghost use Rattle.strike_list.specs.Lists.{listed};
ghost use Rattle.strike_table.specs.Tables.{settled, Marked, Onward, Decides, Settles, Complete, Ready, Fills};

use facts_heads::ROOM;
use model::Model;
use strike_list::Lines;

// The choices of ten lines.
pub const CHOICES: usize = 1024;

// Whether each choice is reached, by its number, or nothing before it is decided, and how many choices there are.
// The number stays beside the array: memory is fixed, and the places behind it are not read.
#[derive(Clone, Copy)]
pub struct Table {
    pub said: [Option<bool>; CHOICES],
    pub total: usize,
}

// Whether the choice of number n settles that of number k: a reached one those that strike fewer of its lines, an unreached one those that strike more.
fn settles(n: u32, reached: bool, k: u32) -> bool
    ensures { result ≡ settled n reached k }
{
    if reached { k & n == k } else { k & n == n }
}

// Says of all choices that a decided one settles what is said of that one.
fn mark(said: &mut [Option<bool>], n: u32, reached: bool)
    requires { length said.old ≤ 1024 }
    ensures { Marked n reached said.old said.new }
{
    for (k, v) in said.iter_mut().enumerate() {
        if settles(n, reached, k as u32) {
            *v = Some(reached);
        }
    }
}

// Whether the question is reached with the lines of a choice struck, by a search.
// The model, the lines, the choice and the room for facts stay apart: the room is written by each search, and the choice is another one for each.
fn reached(m: Model, l: Lines, n: u32, facts: &mut [u8]) -> bool
    requires { WellFormed m × (MoreThan limit.atomic (program_of m) → ⊥) × (l.count ≤ most) × (room ≤ length facts.old) }
    ensures { Verdict (strike (program_of m) (numbered (listed l) n)) (question_of m) result × (length facts.new ≡ length facts.old) }
{
    let chosen = strike_list::choose(l, n);
    let struck = strike_model::strike(m, &chosen.lines[..chosen.count]);
    // No more states are reachable with lines struck than with none.
    search::search(facts, struck).unwrap().reached
}

// Whether a choice is reached: by the table, where a decided one has settled it, or by a search, which then says what it settles.
// What a choice is decided with stays apart, and that all is ready and the choice is there stays in clauses: a struct lent for writing would have each of these contracts say besides that the model and the lines are as they were.
fn decide(said: &mut [Option<bool>], m: Model, l: Lines, n: u32, facts: &mut [u8]) -> bool
    requires { Ready m l said.old facts.old × (n < length said.old) }
    ensures { Decides (program_of m) (question_of m) (listed l) n result said.old said.new × (length facts.new ≡ length facts.old) }
{
    if let Some(known) = said[n as usize] {
        return known;
    }
    let found = reached(m, l, n, facts);
    mark(said, n, found);
    found
}

// From a choice on, decides those with one line more struck, as long as they are reached: the last settles all below it.
fn climb(said: &mut [Option<bool>], m: Model, l: Lines, n: u32, facts: &mut [u8])
    requires { Ready m l said.old facts.old × (n < length said.old) }
    ensures { Onward (program_of m) (question_of m) (listed l) said.old said.new × (length facts.new ≡ length facts.old) }
{
    let mut top = n;
    for i in 0..l.count {
        let next = top | (1 << i);
        if decide(said, m, l, next, facts) {
            top = next;
        }
    }
}

// Decides a choice, unless it is settled, and climbs from it.
fn settle(said: &mut [Option<bool>], m: Model, l: Lines, n: u32, facts: &mut [u8])
    requires { Ready m l said.old facts.old × (n < length said.old) }
    ensures { Settles (program_of m) (question_of m) (listed l) n said.old said.new × (length facts.new ≡ length facts.old) }
{
    if said[n as usize].is_none() {
        decide(said, m, l, n, facts);
        climb(said, m, l, n, facts);
    }
}

// Decides every choice: all struck first, which may settle the whole table; then by rising number, so that of one that is not settled all below it are reached.
fn complete(said: &mut [Option<bool>], m: Model, l: Lines, facts: &mut [u8])
    requires { Ready m l said.old facts.old }
    ensures { Complete (program_of m) (question_of m) (listed l) said.new }
{
    decide(said, m, l, (said.len() - 1) as u32, facts);
    for n in 0..said.len() {
        settle(said, m, l, n as u32, facts);
    }
}

// How many choices there are of so many lines.
fn choices_of(count: usize) -> usize
    requires { count ≤ most }
    ensures { result ≡ 2 ^ count }
{
    1 << count
}

// Searches with nothing struck, and decides every choice; or nothing, where there are too many states.
pub fn fill(m: Model, l: Lines) -> Option<Table>
    requires { WellFormed m × (l.count ≤ most) }
    ensures { Fills (program_of m) (question_of m) (listed l) result }
{
    let total = choices_of(l.count);
    let mut said = [None; CHOICES];
    let mut facts = [0u8; ROOM];
    let whole = search::search(&mut facts, m)?;
    let choices = &mut said[..total];
    mark(choices, 0, whole.reached);
    complete(choices, m, l, &mut facts);
    Some(Table { said, total })
}
