// The variables of the `ask` line, numbered over the whole line by first appearance, and those that are carried.
#![tactic(auto)]

ghost use Rattle.std.specs.Prelude.{◌≡◌, List, ◌+◌, ◌≤◌, ◌<◌, length};
ghost use Rattle.limits.specs.Limits as limit;
ghost use Rattle.grammar.specs.Bytes.{Word};
ghost use Rattle.text_scope.specs.Scopes as scopes;
ghost use Rattle.text_carried.specs.Asking.{Met, Holds, Numbers, carriers_of};

use limits::{ASKED, CARRIED, NONE, VARIABLES};
use text_scope::Scope;

// The variable from a to e stands in one stage more; its number.
// It stays beside the same of a literal: there a fourth variable is refused, and `not` says which variables are marked, so that one function for both would take two flags and an answer that is never none here.
fn meet(text: &[u8], t: &mut Scope<ASKED>, a: usize, e: usize) -> usize
    requires { scopes.Valid text.now t.old × (a ≤ e) × (e ≤ length text.now) × (t.old.count < limit.asked) }
    ensures { Met text.now t.old a e t.new result }
{
    if let Some(number) = t.find(text, &text[a..e]) {
        t.mark(number);
        return number;
    }
    let number = t.count;
    t.add(a, e, false);
    number
}

// The variables of one stage more are entered, and numbered. A variable is marked where it stands in a second stage.
pub fn number(text: &[u8], t: &mut Scope<ASKED>, s: Scope<VARIABLES>) -> [u32; VARIABLES]
    requires { scopes.Valid text.now s × (t.old.count + s.count ≤ limit.asked) × ((ws : List Word) × Holds text.now t.old ws) }
    ensures { Numbers text.now t.old (scopes.known_of text.now s) t.new result }
{
    let mut numbers = [0u32; VARIABLES];
    for (j, v) in s.variables[..s.count].iter().enumerate() {
        numbers[j] = meet(text, t, v.start, v.end) as u32;
    }
    numbers
}

// The cells of the variables that stand in a second stage, 255 in one that has none; none if there are more than cells. The variables are numbered by first appearance, so they rise in that order.
// 255 stays for no variable: it is the number of none, so that a cell is compared with a stage's numbers as it stands.
// The count of cells stays by hand: a loop over `enumerate` of a `filter` was tried, and the proof that a third marked variable is one too many did not close.
pub fn carried(t: Scope<ASKED>) -> Option<[u32; CARRIED]>
    ensures { result ≡ carriers_of t }
{
    let mut cells = [NONE; CARRIED];
    let mut found = 0;
    for (i, v) in t.variables.iter().enumerate() {
        if v.marked {
            if found == CARRIED {
                return None;
            }
            cells[found] = i as u32;
            found += 1;
        }
    }
    Some(cells)
}
