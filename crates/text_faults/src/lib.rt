// Rows 6 to 8 for a name of a list, a rule's head and a literal; a name is given by its relation code.
#![tactic(auto)]

ghost use Rattle.std.specs.Prelude.{◌≡◌};
ghost use Rattle.grammar.specs.Declarations.{arity_of};
ghost use Rattle.grammar.specs.Rows.{name_fault, head_fault};
ghost use Rattle.text_names.specs.Names.{found};
ghost use Rattle.text_faults.specs.Faults.{sign_fault, Both, Coded};

use rows::Row;

// Both values, or the lowest row of the two.
pub fn both<A: Copy, B: Copy>(a: Result<A, Row>, b: Result<B, Row>) -> Result<(A, B), Row>
    ensures { Both a b result }
{
    match (a, b) {
        (Ok(x), Ok(y)) => Ok((x, y)),
        (Ok(_), Err(y)) => Err(y),
        (Err(x), Ok(_)) => Err(x),
        (Err(x), Err(y)) => Err(x.min(y)),
    }
}

// How many variables the relation takes.
pub fn arity(code: u32) -> u32
    ensures { result ≡ arity_of code }
{
    if code < 32 {
        return 1;
    }
    code / 32 - 1
}

// The code of a name of a list.
pub fn state_code(code: Option<u32>) -> Result<u32, Row>
    ensures { Coded (name_fault (found code)) code result }
{
    code.filter(|c| *c < 32).ok_or(Row::Kind)
}

// The code of a rule's head with n variables.
pub fn head_code(code: Option<u32>, n: usize) -> Result<u32, Row>
    ensures { Coded (head_fault (found code) n) code result }
{
    let c = code.filter(|c| 32 <= *c).ok_or(Row::Kind)?;
    if n != arity(c) as usize {
        return Err(Row::Arity);
    }
    Ok(c)
}

// The code of a literal with n variables.
// The flag stays beside the code: it is the text's `not`, which stands apart from the relation's name.
pub fn literal_code(negated: bool, code: Option<u32>, n: usize) -> Result<u32, Row>
    ensures { Coded (sign_fault negated (found code) n) code result }
{
    let c = code.ok_or(Row::Kind)?;
    if n != arity(c) as usize {
        return Err(Row::Arity);
    }
    if negated && 32 <= c {
        return Err(Row::Negation);
    }
    Ok(c)
}
