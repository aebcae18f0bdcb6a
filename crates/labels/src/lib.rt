// One atomic state: whether it has a relation, and what a `next` line makes of it.
#![tactic(auto)]

ghost use Rattle.std.specs.Prelude.{◌≡◌, ◌&&◌, ◌<◌, ◌^◌, nat_lt};
ghost use Rattle.semantics.specs.Labels.{has as member, relabel as relabeled};
ghost use Rattle.semantics.specs.FourCases.{case_of, worked};
ghost use Rattle.labels.specs.Cases.{said};

// The relations that a state may have.
const RELATIONS: u32 = 32;

// The cases of the paper's section 2.2 for one relation: it stands in the first list alone, in the second alone, in both, or in neither.
#[derive(Clone, Copy)]
enum Case {
    Set,
    Cleared,
    Both,
    Neither,
}

// Whether the atomic state has the relation.
pub fn has(state: u32, relation: u32) -> bool
    ensures { result ≡ member state relation }
{
    relation < RELATIONS && (state >> relation) & 1 == 1
}

// The case of a relation, by whether it stands in the first list and in the second.
fn case_of(first: bool, second: bool) -> Case
    ensures { said result ≡ case_of first second }
{
    match (first, second) {
        (true, false) => Case::Set,
        (false, true) => Case::Cleared,
        (true, true) => Case::Both,
        (false, false) => Case::Neither,
    }
}

// The work of a `next` step on one relation: whether the object has it afterwards, by whether it had it.
fn work(case: Case, had: bool) -> bool
    ensures { result ≡ worked (said case) had }
{
    match case {
        Case::Set => true,
        Case::Cleared => false,
        Case::Both => false,
        Case::Neither => had,
    }
}

// Whether a state has the relation after a `next` line.
fn keeps(state: u32, plus: u32, minus: u32, relation: u32) -> bool
    ensures { result ≡ member (relabeled state plus minus) relation }
{
    let case = case_of(has(plus, relation), has(minus, relation));
    work(case, has(state, relation))
}

// Whether neither a state nor a list has a relation from this one on.
fn ended(state: u32, plus: u32, relation: u32) -> bool
    requires { relation < 32 }
    ensures { result ≡ (nat_lt state (2 ^ relation) && nat_lt plus (2 ^ relation)) }
{
    state >> relation == 0 && plus >> relation == 0
}

// The atomic state after a `next` line, relation by relation: those of `plus` are added, then those of `minus` removed.
pub fn relabel(state: u32, plus: u32, minus: u32) -> u32
    ensures { result ≡ relabeled state plus minus }
{
    let mut after = 0;
    for relation in 0..RELATIONS {
        if ended(state, plus, relation) {
            return after;
        }
        if keeps(state, plus, minus, relation) {
            after |= 1 << relation;
        }
    }
    after
}
