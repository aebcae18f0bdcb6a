// The numbers of what is answered for a mark and for display.
#![tactic(auto)]

ghost use Rattle.std.specs.Prelude.{◌≡◌};
ghost use Rattle.codes.specs.Codes.{handed as handin_code, marked as mark_code, spanned as span_code, declared as declaration_code};
ghost use Rattle.codes.specs.Ranges.{ShortRun, LowPlace, Near, NearName};

use display::Declaration;
use display_shapes::Span;
use handin::{Run, Unreadable};
use marker_worth::Mark;
use words::{Kind, Numbered};

// The number of what a hand-in says.
// It and the functions below stay functions and no `From`: neither what they take nor `u64` is a type of this crate.
pub fn handed(said: Result<Option<Run>, Unreadable>) -> u64
    requires { ShortRun said }
    ensures { result ≡ handin_code said }
{
    match said {
        Ok(None) => words::word(Kind::SaysNo, 0),
        Ok(Some(yes)) => words::word(Kind::SaysYes, yes.places as u64 * 65_536 + yes.first as u64),
        Err(unreadable) => words::word(Kind::Unreadable, unreadable.line as u64),
    }
}

// The number of a mark.
pub fn marked(mark: Result<Mark, Numbered>) -> u64
    requires { LowPlace mark }
    ensures { result ≡ mark_code mark }
{
    match mark {
        Ok(Mark::Unreadable { line }) => words::word(Kind::Unreadable, line as u64),
        Ok(Mark::Right) => words::word(Kind::Right, 0),
        Ok(Mark::Other { reached }) => words::word(Kind::Other, u64::from(reached)),
        Ok(Mark::Breaks { place, line }) => {
            words::word(Kind::Breaks, place as u64 * 65_536 + line as u64)
        }
        Err(r) => words::refusal(r.number, r.line),
    }
}

// The number of a part of a line, if there is one.
// 0 stays for none, here and in `declared`: this is the word that C reads.
pub fn spanned(span: Option<Span>) -> u64
    requires { Near span }
    ensures { result ≡ span_code span }
{
    span.map_or(0, |s| s.from as u64 * 4_294_967_296 + s.to as u64)
}

// The number of a declared relation, if there is one.
pub fn declared(relation: Option<Declaration>) -> u64
    requires { NearName relation }
    ensures { result ≡ declaration_code relation }
{
    relation.map_or(0, |r| {
        r.from as u64 * 4_294_967_296 + (r.size as u64 * 65_536 + r.code as u64)
    })
}
