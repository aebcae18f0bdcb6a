// The list of lines that could be struck: whether it is refused, its lines in rising order, and the lines of a choice by its number.
#![tactic(auto)]

ghost use Rattle.std.specs.Prelude.{◌≡◌, false, ◌&&◌, [], ◌+◌, ◌≤◌, ◌<◌, length, slice_set};
ghost use Rattle.semantics.specs.Models.{elem};
ghost use Rattle.model.specs.Records.{program_of};
ghost use Rattle.model.specs.WellFormed.{WellFormed};
ghost use Rattle.striking.specs.Striking.{most, faulty as is_faulty, rising as in_order};
ghost use Rattle.striking.specs.Numbers.{numbered};
ghost use Rattle.strike_list.specs.Lists.{shown, listed, free, named};

use model::{Action, Model};

// The lines of a list at most.
pub const MOST: usize = 10;

// Lines in rising order, and how many they are; the numbers behind them are zero.
// The count stays beside the array: memory is fixed, and C is lent all places.
#[derive(Clone, Copy)]
pub struct Lines {
    pub lines: [u32; MOST],
    pub count: usize,
}

impl Lines {
    // No lines.
    fn none() -> Lines
        ensures { result ≡ shown [] }
    {
        Lines {
            lines: [0; MOST],
            count: 0,
        }
    }

    // Takes in one line more.
    fn push(&mut self, line: u32)
        requires { self.old.count < most }
        ensures { (self.new.lines ≡ slice_set self.old.lines self.old.count line) × (self.new.count ≡ self.old.count + 1) }
    {
        self.lines[self.count] = line;
        self.count += 1;
    }
}

// Whether a clause of this action and line is a listed `new` or `next` line.
fn wanted(action: Action, line: u32, list: &[u32]) -> bool
    ensures { result ≡ (free action && elem line list.now) }
{
    match action {
        Action::Rule { .. } => false,
        Action::New { .. } | Action::Next { .. } => list.contains(&line),
    }
}

// The listed lines that are `new` or `next` lines, in the order of the model.
// That the model is well formed stays a clause: a record is blank before a text is read into it, which is not well formed, and a second type around a well-formed record would be opened wherever a field of it is read.
fn gather(m: Model, list: &[u32]) -> Lines
    requires { WellFormed m × (length list.now ≤ most) }
    ensures { result ≡ shown (named (program_of m) list.now) }
{
    let mut found = Lines::none();
    for c in &m.clauses[..m.clausecount] {
        if wanted(c.action, c.line, list) {
            found.push(c.line);
        }
    }
    found
}

// Whether the list is refused.
pub fn faulty(m: Model, list: &[u32]) -> bool
    requires { WellFormed m }
    ensures { result ≡ is_faulty (program_of m) list.now }
{
    if list.is_empty() || list.len() > MOST {
        return true;
    }
    let found = gather(m, list);
    found.count != list.len()
}

// The lines of a list that is not refused, in rising order.
pub fn rising(m: Model, list: &[u32]) -> Lines
    requires { WellFormed m × (is_faulty (program_of m) list.now ≡ false) }
    ensures { result ≡ shown (in_order list.now) }
{
    gather(m, list)
}

// The lines of the choice of that number: the first line has the highest bit.
pub fn choose(l: Lines, number: u32) -> Lines
    requires { l.count ≤ most }
    ensures { result ≡ shown (numbered (listed l) number) }
{
    let mut chosen = Lines::none();
    for (i, &line) in l.lines[..l.count].iter().enumerate() {
        if labels::has(number, (l.count - 1 - i) as u32) {
            chosen.push(line);
        }
    }
    chosen
}
