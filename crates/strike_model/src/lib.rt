// A model without some of its lines.
#![tactic(auto)]

ghost use Rattle.model.specs.WellFormed.{WellFormed};
ghost use Rattle.strike_model.specs.Models.{Strikes};

use model::Model;

// The model without the clauses of the listed lines: the others move up, and keep their line numbers.
// The places stay numbers: the clauses move up within their own array, an iterator by value would first copy all of them, and `retain` is a method of `Vec` alone.
pub fn strike(mut m: Model, lines: &[u32]) -> Model
    requires { WellFormed m }
    ensures { Strikes m lines.now result }
{
    let n = m.clausecount;
    let mut kept = 0;
    for i in 0..n {
        let c = m.clauses[i];
        if !lines.contains(&c.line) {
            m.clauses[kept] = c;
            kept += 1;
        }
    }
    m.clausecount = kept;
    m
}
