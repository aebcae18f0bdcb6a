// The table of moves over the found states, who can come from which state to which, and a shortest way.
#![tactic(auto)]

ghost use Rattle.std.specs.Prelude.{◌≡◌, ℕ, ◌+◌, ◌*◌, ◌≤◌, ◌<◌, length};
ghost use Rattle.limits.specs.Limits as limit;
ghost use Rattle.semantics.specs.Labels.{relabel};
ghost use Rattle.semantics.specs.Models.{Distinct, line};
ghost use Rattle.semantics.specs.Facts.{state};
ghost use Rattle.semantics.specs.Walkers.{Whole, Takes, Comes};
ghost use Rattle.model.specs.declared.Action.TheVariants as action;
ghost use Rattle.model.specs.Records.{program_of};
ghost use Rattle.model.specs.WellFormed.{WellFormed};
ghost use Rattle.facts_bits.specs.Width as width;
ghost use Rattle.facts_heads.specs.Heads.{room};
ghost use Rattle.search_states.specs.States.{row, Proper};
ghost use Rattle.search_ways.specs.Moves.{Marks, None, With, InRow, Noted, Exactly, CanTake};
ghost use Rattle.search_ways.specs.Steps.{Between, Turns, LineBetween, Led, OneStep};
ghost use Rattle.search_ways.specs.Chains.{Inside, Linked, Through};
ghost use Rattle.search_ways.specs.Shortest.{Says, Near, Joins, Joined, Nearest, Shortest};

use facts_bits::{BYTES, WIDTH};
use limits::{CLAUSES, LISTED};
use model::{Action, Clause, Model};
use search_states::States;

// The bytes of a table of moves, with a row for each clause.
pub const TABLE: usize = CLAUSES * BYTES;

// The bytes of a matrix, with a row for each slot of a search.
pub const MATRIX: usize = LISTED * BYTES;

// From which slots each clause can be taken, to which slots one step at most leads from each slot, and to which any number of steps.
// The matrices stay two arrays: each is lent by itself, as a matrix of its own.
#[derive(Clone, Copy)]
pub struct Moves {
    pub table: [u8; TABLE],
    pub steps: [u8; MATRIX],
    pub ways: [u8; MATRIX],
}

// Adds to row i of the table the marks of clause i, if it is a `next` clause.
fn note(work: &[u8], c: Clause, i: usize, table: &mut [u8])
    requires { (room ≤ length work.now) × (i * width.bytes + width.bytes ≤ length table.old) × (i < limit.clauses) }
    ensures { Marks table.new (With table.old (InRow i width.slots (Noted c.action work.now i))) }
{
    if let Action::Next { .. } = c.action {
        let row = facts_bits::row(work, facts_heads::guard_row(i));
        facts_bits::widen(table, i, row);
    }
}

// The table of moves: row i has the slots from which clause i can be taken, if it is a `next` clause.
// That the model is well formed stays a clause: a record is blank before a text is read into it, which is not well formed, and a second type around a well-formed record would be opened wherever a field of it is read.
// Here and in `steps` the loop stays over the numbers of the clauses: the rows of the table stand by the number, and `enumerate` would only give a name to the clause, which is read once.
pub fn takes(work: &[u8], m: Model) -> [u8; TABLE]
    requires { WellFormed m × (room ≤ length work.now) }
    ensures { (s : States) → Exactly m work.now s → Marks result (CanTake m s) }
{
    let mut table = [0u8; TABLE];
    for i in 0..m.clausecount {
        note(work, m.clauses[i], i, &mut table);
    }
    table
}

// Marks each of the first n slots with itself.
// That n is at most so many stays a clause: a type with that bound would be made of the count by this very clause, to be taken apart for the end of a loop.
fn stay(n: usize, ways: &mut [u8; MATRIX])
    requires { (n ≤ limit.listed) }
    ensures { Marks ways.new (With ways.old (Between n (λ e t. e ≡ t))) }
{
    for e in 0..n {
        facts_bits::put(ways, e * WIDTH + e);
    }
}

// Marks the slot that the relabeled state of slot e has, if it has one.
// That the states are different and few stays in clauses: what is lent is the part of the found states that counts, and a struct around it would be made by these very clauses, in `steps` alone.
fn lead_at(states: &[u32], plus: u32, minus: u32, e: usize, ways: &mut [u8; MATRIX])
    requires { Distinct states.now × (length states.now ≤ limit.listed) × (e < length states.now) }
    ensures { Marks ways.new (With ways.old (InRow e (length states.now) (λ t. state states.now t ≡ relabel (state states.now e) plus minus))) }
{
    let led = labels::relabel(states[e], plus, minus);
    if let Some(t) = search_states::seek(states, led) {
        facts_bits::put(ways, e * WIDTH + t);
    }
}

// Marks where a `next` clause leads from each slot of its row of the table.
// It and `lead_clause` stay beside `lead` and `lead_clause` of game_moves: one function would take the slot of a state that is not found, or none, and be public, and `Led` and `Goes`, by which the two rooms say where a line leads, would each have to be drawn from what it promises.
// The loop stays over the slots: `lead_at` says where slot e is led by its number, and given the state too it would need a clause that this is the state of slot e.
fn lead_next(
    states: &[u32],
    plus: u32,
    minus: u32,
    table: &[u8; TABLE],
    i: usize,
    ways: &mut [u8; MATRIX],
)
    requires { Distinct states.now × (length states.now ≤ limit.listed) × (i < 64) }
    ensures { Marks ways.new (With ways.old (Between (length states.now) (Led table.now i states.now (action.Next plus minus)))) }
{
    for e in 0..states.len() {
        if facts_bits::get(table, i * WIDTH + e) {
            lead_at(states, plus, minus, e, ways);
        }
    }
}

// Marks where a clause leads from each slot of its row of the table.
fn lead_clause(states: &[u32], c: Clause, table: &[u8; TABLE], i: usize, ways: &mut [u8; MATRIX])
    requires { Distinct states.now × (length states.now ≤ limit.listed) × (i < 64) }
    ensures { Marks ways.new (With ways.old (Between (length states.now) (Led table.now i states.now c.action))) }
{
    if let Action::Next { plus, minus } = c.action {
        lead_next(states, plus, minus, table, i, ways);
    }
}

// The matrix of single steps: row e has slot e and the slots to which some line takes an object of its state.
// The model, the states and the table stay apart, with what they must be in clauses, as at `way`; the moves, which hold the table, are made of what this answers.
pub fn steps(m: Model, s: States, table: &[u8; TABLE]) -> [u8; MATRIX]
    requires { WellFormed m × Proper s × Marks table.now (CanTake m s) }
    ensures { Marks result (Between s.count (OneStep (program_of m) (row s))) }
{
    let mut ways = [0u8; MATRIX];
    stay(s.count, &mut ways);
    let states = s.row();
    for i in 0..m.clausecount {
        lead_clause(states, m.clauses[i], table, i, &mut ways);
    }
    ways
}

// Adds what row k has to each of the first n rows that has slot k.
// The test of each row stays: the rows that have slot k are a column of the matrix, and `facts_bits::slots` goes along a row.
fn pass(ways: &mut [u8; MATRIX], n: usize, k: usize)
    requires { (n ≤ limit.listed) × (k < n) }
    ensures { Marks ways.new (With ways.old (λ e t. (e < n) × Through ways.old k e t)) }
{
    let row = facts_bits::row(ways, k);
    for e in 0..n {
        if facts_bits::get(ways, e * WIDTH + k) {
            facts_bits::widen(ways, e, row);
        }
    }
}

// The transitive closure of a matrix of n slots.
pub fn close(ways: &mut [u8; MATRIX], n: usize)
    requires { (n ≤ limit.listed) × Inside n ways.old }
    ensures { Marks ways.new (Between n (Linked ways.old n)) }
{
    for k in 0..n {
        pass(ways, n, k);
    }
}

// Sets in row j + 1 of the layers the slots to which one pair leads from those of row j.
// The loop stays beside `facts_bits::slots`: row j may have slots from n on, so that a test of each slot would stay in it all the same.
fn spread(links: &[u8; MATRIX], n: usize, layers: &mut [u8; MATRIX], j: usize)
    requires { (n ≤ limit.listed) × (j < limit.atomic) }
    ensures { Marks layers.new (With layers.old (InRow (j + 1) width.slots (Joined links.now layers.old n j))) }
{
    for u in 0..n {
        if facts_bits::get(layers, j * WIDTH + u) {
            let row = facts_bits::row(links, u);
            facts_bits::widen(layers, j + 1, row);
        }
    }
}

// The least number of pairs that lead from one slot to another; the layers up to it are laid out.
fn reach(links: &[u8; MATRIX], n: usize, from: usize, to: usize, layers: &mut [u8; MATRIX]) -> usize
    requires { (n ≤ limit.listed) × (from < n) × (to < n) × Marks layers.old None × ((j : ℕ) × (j < n) × Near links.now n j from to) }
    ensures { Nearest links.now n from to layers.new result }
{
    facts_bits::put(layers, from);
    for j in 0..n {
        if facts_bits::get(layers, j * WIDTH + to) {
            return j;
        }
        spread(links, n, layers, j);
    }
    unreachable!()
}

// Is slot u in row j of the layers, with a pair that leads from it to slot t?
fn joins(links: &[u8; MATRIX], layers: &[u8; MATRIX], j: usize, t: usize, u: usize) -> bool
    requires { (j < limit.listed) × (t < limit.listed) × (u < limit.listed) }
    ensures { Says result (Joins links.now layers.now j t u) }
{
    facts_bits::get(layers, j * WIDTH + u) && facts_bits::get(links, u * WIDTH + t)
}

// The first slot of row j of the layers with a pair that leads from it to slot t.
fn before(links: &[u8; MATRIX], layers: &[u8; MATRIX], n: usize, j: usize, t: usize) -> usize
    requires { (n ≤ limit.listed) × (j < limit.listed) × (t < n) × Joined links.now layers.now n j t }
    ensures { (result < n) × Joins links.now layers.now j t result }
{
    (0..n).find(|u| joins(links, layers, j, t, *u)).unwrap()
}

// Does the clause make one state of the other?
pub fn turns(c: Clause, from: u32, to: u32) -> bool
    ensures { Says result (Turns c.action from to) }
{
    match c.action {
        Action::Next { plus, minus } => to == labels::relabel(from, plus, minus),
        _ => false,
    }
}

// The line of the first clause that can be taken from slot u and makes the one state the other, if there is one.
// That the model is well formed stays a clause: a record is blank before a text is read into it, which is not well formed, and a second type around a well-formed record would be opened wherever a field of it is read.
pub fn line_between(m: Model, table: &[u8; TABLE], u: usize, from: u32, to: u32) -> Option<u32>
    requires { WellFormed m × (u < width.slots) }
    ensures { LineBetween m table.now u from to result }
{
    let i = (0..m.clausecount).find(|i| {
        facts_bits::get(table, *i * WIDTH + u) && turns(m.clauses[*i], from, to)
    })?;
    Some(m.clauses[i].line)
}

// The line of the first clause that takes an object of the state of slot u to that of slot t.
fn line_to(m: Model, s: States, table: &[u8; TABLE], u: usize, t: usize) -> u32
    requires { WellFormed m × Proper s × Marks table.now (CanTake m s) × (u < s.count) × (t < s.count) × ((ℓ : ℕ) × Takes (program_of m) (row s) (state (row s) u) (state (row s) t) (line (program_of m) ℓ)) }
    ensures { Takes (program_of m) (row s) (state (row s) u) (state (row s) t) (line (program_of m) result) }
{
    line_between(m, table, u, s.states[u], s.states[t]).unwrap()
}

// The lines of a shortest way from one slot to another, and how many they are.
// The model, the states, the table and the steps stay apart: `line_between` reads the model and the table and no states, `reach` and `before` the steps alone, and of all `Moves` the third matrix is not asked for, which a caller need not have.
// The lines stay in a row that is lent, with their number as the answer: there is no heap, and the row is C's run table or one of fixed size.
pub fn way(
    m: Model,
    s: States,
    table: &[u8; TABLE],
    steps: &[u8; MATRIX],
    from: usize,
    to: usize,
    out: &mut [u32],
) -> usize
    requires { WellFormed m × Proper s × Whole (program_of m) (row s) × Marks table.now (CanTake m s) × Marks steps.now (Between s.count (OneStep (program_of m) (row s))) × (from < s.count) × (to < s.count) × Comes (program_of m) (row s) (state (row s) from) (state (row s) to) × (s.count ≤ length out.old) }
    ensures { Shortest (program_of m) (row s) from to out.old out.new result }
{
    let n = s.count;
    let mut layers = [0u8; MATRIX];
    let k = reach(steps, n, from, to, &mut layers);
    let mut t = to;
    for j in (0..k).rev() {
        let u = before(steps, &layers, n, j, t);
        out[j] = line_to(m, s, table, u, t);
        t = u;
    }
    k
}
