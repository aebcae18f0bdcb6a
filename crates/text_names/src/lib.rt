// The declared names: their relation codes, and where in the text they stand.
#![tactic(auto)]

ghost use Rattle.std.specs.Prelude.{◌≡◌, ◌≤◌, ◌<◌, length, IfSome};
ghost use Rattle.std.proofs.Math.Seq.{slice};
ghost use Rattle.limits.specs.Limits as limit;
ghost use Rattle.grammar.specs.Declarations.{lookup};
ghost use Rattle.grammar.specs.Bytes.{same};
ghost use Rattle.text_names.specs.Names.{begin, end, declared_of, Valid, found, tally, added};

use limits::DECLARED;

// A declared name: its relation code, the byte at which it begins, and how many bytes it has.
#[derive(Clone, Copy)]
pub struct Name {
    pub code: u32,
    pub start: u32,
    pub len: u32,
}

// The declared names, in order.
// The count stays beside the array: memory is fixed, and the places behind it are not read.
#[derive(Clone, Copy)]
pub struct Declared {
    pub names: [Name; DECLARED],
    pub count: usize,
}

// Whether a name has those bytes.
fn is_named(text: &[u8], n: Name, word: &[u8]) -> bool
    requires { end n ≤ length text.now }
    ensures { result ≡ same word.now (slice (begin n) (end n) text.now) }
{
    let s = n.start as usize;
    let t = s + n.len as usize;
    text_scan::same_words(word, &text[s..t])
}

// The code of the name with those bytes, if it is declared.
// The search stays beside that of `text_scope`: a name stands by its start and length, as the model keeps it, a variable by its start and end, so that one search for both would take a closure from one of them to its bytes, and save the one chain that each has.
pub fn find(text: &[u8], d: &Declared, word: &[u8]) -> Option<u32>
    requires { Valid text.now d.now }
    ensures { IfSome result (λ c. c < 128) × (lookup word.now (declared_of text.now d.now) ≡ found result) }
{
    let i = d.names[..d.count]
        .iter()
        .position(|n| is_named(text, *n, word))?;
    Some(d.names[i].code)
}

// How many relations of class k are declared.
pub fn tally_of(d: &Declared, k: u32) -> usize
    requires { (d.now.count ≤ limit.declared) × (length d.now.names ≡ limit.declared) }
    ensures { result ≡ tally k d.now.names d.now.count }
{
    d.names[..d.count]
        .iter()
        .filter(|n| n.code / 32 == k)
        .count()
}

// One name more.
// It stays a function from a row of names to a row: its caller answers the names or a refusal, and over `&mut` each contract up to `text_declarations::read_state` would also say what the names are beside a refusal.
pub fn add(mut d: Declared, name: Name) -> Declared
    requires { d.count < limit.declared }
    ensures { result ≡ added d name }
{
    let n = d.count;
    d.names[n] = name;
    d.count = n + 1;
    d
}

// No name.
pub fn none() -> Declared
    ensures { result.count ≡ 0 }
{
    let blank = Name {
        code: 0,
        start: 0,
        len: 0,
    };
    Declared {
        names: [blank; DECLARED],
        count: 0,
    }
}
