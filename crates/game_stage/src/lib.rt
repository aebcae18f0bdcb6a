// The found states that meet a question of one stage with one variable.
#![tactic(auto)]

ghost use Rattle.std.specs.Prelude.{◌≡◌, ◌↔◌, true, ◌<◌, length};
ghost use Rattle.limits.specs.Limits as limit;
ghost use Rattle.semantics.specs.Facts.{Database};
ghost use Rattle.model.specs.Records.{number_in, program_of, stage_at, stage_of};
ghost use Rattle.model.specs.Literals.{body_of};
ghost use Rattle.model.specs.WellFormed.{WellFormed};
ghost use Rattle.facts_table.specs.Table.{Consistent, Rows};
ghost use Rattle.facts_candidates.specs.Choices.{Own};
ghost use Rattle.facts_holds.specs.Shows.{Evaluable};
ghost use Rattle.facts.specs.Facts.{Exact};
ghost use Rattle.search_states.specs.States.{row, Proper};
ghost use Rattle.game_lists.specs.Lists.{OneVariable};
ghost use Rattle.game_stage.specs.Meeting.{ShowsWith, Meeting};

use facts_bits::BYTES;
use facts_candidates::Choice;
use model::Model;
use search_states::States;

// Does the body, which has one variable, hold over the slots with slot e for it?
fn meets(work: &[u8], slots: &[u8], body: &[u32], e: usize) -> bool
    requires { Consistent work.now × Own (length slots.now) slots.now × Evaluable body.now 1 × (e < limit.listed) }
    ensures { (S : Database) → Rows S work.now → length S ≡ length slots.now → (result ≡ true) ↔ ShowsWith S work.now (body_of body.now (length body.now)) e }
{
    let free = Choice::free();
    let fixed = free.choose(0, e);
    facts_holds::shows(work, slots, body, 1, fixed)
}

// The slots of the found states that meet the question.
pub fn meeting(work: &[u8], m: Model, s: States) -> [u8; BYTES]
    requires { WellFormed m × Proper s × Consistent work.now × Exact m (row s) work.now × OneVariable m }
    ensures { Meeting (program_of m) (row s) (stage_of m.literals (stage_at m 0)) (number_in (stage_at m 0) 0) result }
{
    let own = facts_candidates::slots();
    let slots = &own[..s.count];
    let stage = m.stages[0];
    let body = stage.body(&m.literals);
    let mut met = [0u8; BYTES];
    for e in 0..s.count {
        if meets(work, slots, body, e) {
            facts_bits::put(&mut met, e);
        }
    }
    met
}
