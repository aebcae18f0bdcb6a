// The row of atomic states that a search has found, in order of discovery, each with how it came, and whether the empty one is among them.
#![tactic(auto)]

ghost use Rattle.std.specs.Prelude.{◌≡◌, ◌≤◌, ◌<◌, length};
ghost use Rattle.limits.specs.Limits as limit;
ghost use Rattle.search_states.specs.States.{row, nothing, added, Sought, Proper};
ghost use Rattle.search_states.specs.Rising.{Lists};

use limits::{ATOMIC, LISTED};

// How a state came: by which line, and from which state of the row.
#[derive(Clone, Copy)]
pub struct Arrival {
    pub line: u32,
    pub origin: u32,
}

// State i came as arrivals[i] says. The empty state stands beside the row: it moves nothing and stands for no variable.
// The flag stays: whether the empty state is found is a fact by itself, and no field counts by it.
// The count stays beside the arrays: memory is fixed, and the places behind it are not read.
// The states stay an array of their own beside the arrivals: they are a database, which is lent as a slice of numbers.
#[derive(Clone, Copy)]
pub struct States {
    pub states: [u32; ATOMIC],
    pub arrivals: [Arrival; ATOMIC],
    pub count: usize,
    pub empty: bool,
}

impl States {
    // The found states, without the places behind them.
    pub fn row(&self) -> &[u32]
        requires { self.now.count ≤ length self.now.states }
        ensures { result.now ≡ row self.now }
    {
        &self.states[..self.count]
    }
}

// The states by rising number.
// The count stays beside the array: memory is fixed, and C is lent all places, zeros behind the count.
#[derive(Clone, Copy)]
pub struct Listing {
    pub states: [u32; LISTED],
    pub count: usize,
}

// No state is found yet.
pub fn none() -> States
    ensures { result ≡ nothing }
{
    States {
        states: [0; ATOMIC],
        arrivals: [Arrival { line: 0, origin: 0 }; ATOMIC],
        count: 0,
        empty: false,
    }
}

// The first place of x in the row, if it is there.
pub fn seek(row: &[u32], x: u32) -> Option<usize>
    ensures { Sought row.now x result }
{
    row.iter().position(|y| x == *y)
}

// The row with the state behind, unless it is listed already; of the empty state it is noted that it is found. Nothing where there is no room for the state.
// It stays a function from states to states: over `&mut` it would still have to answer whether there was room, and its contract to say what stands in the states where there was none.
pub fn add(mut s: States, state: u32, arrival: Arrival) -> Option<States>
    requires { Proper s × (state < limit.sets) }
    ensures { result ≡ added s state arrival.line arrival.origin }
{
    if state == 0 {
        s.empty = true;
        return Some(s);
    }
    if s.row().contains(&state) {
        return Some(s);
    }
    let n = s.count;
    if n == ATOMIC {
        return None;
    }
    s.states[n] = state;
    s.arrivals[n] = arrival;
    s.count = n + 1;
    Some(s)
}

// The found states by rising number.
pub fn rising(s: States) -> Listing
    requires { Proper s }
    ensures { Lists s result }
{
    let mut states = [0u32; LISTED];
    // The empty state is number 0, which stands in the first place already.
    let first = usize::from(s.empty);
    let count = first + s.count;
    states[first..count].copy_from_slice(s.row());
    states[first..count].sort_unstable();
    Listing { states, count }
}
