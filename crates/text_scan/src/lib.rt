// The bytes, words and names of the bracket text. Each reader takes the text and a place in it; a line is read in the text up to its end.
#![tactic(auto)]

ghost use Rattle.std.specs.Prelude.{◌≡◌, [], ◌∷◌, ◌<◌, ◌≤◌, length, drop, true, MatchOption};
ghost use Rattle.std.proofs.Math.Option.{none};
ghost use Rattle.grammar.specs.Bytes.{alphanumeric, allowed, every, same, is_name as named};
ghost use Rattle.grammar.specs.Shapes.{after, word, name};
ghost use Rattle.text_scan.specs.Found.{NextByte, NextBytes, BytesEnd, WordEnd, NameEnd, BadLine, LineEnd};

use limits::NAME;

// A letter or a digit.
// It stays a function beside `is_ascii_alphanumeric`: its one proof joins std's letters and digits with the grammar's.
pub fn is_alphanumeric(b: u8) -> bool
    ensures { result ≡ alphanumeric b }
{
    b.is_ascii_alphanumeric()
}

// A byte that may stand in a line.
#[tactic(auto, unfolding(grammar::specs::Bytes::allowed))]
fn is_allowed(b: u8) -> bool
    ensures { result ≡ allowed b }
{
    is_alphanumeric(b) || matches!(b, b' ' | b'(' | b')')
}

// Whether byte b is next.
pub fn at_byte(text: &[u8], at: usize, b: u8) -> bool
    ensures { NextByte text.now at b result }
{
    at < text.len() && b == text[at]
}

// Where byte b ends, if it is next.
pub fn past(text: &[u8], at: usize, b: u8) -> Option<usize>
    ensures { MatchOption result (after (b ∷ []) (drop at text.now) ≡ none) (BytesEnd text.now at (b ∷ [])) }
{
    if at_byte(text, at, b) {
        Some(at + 1)
    } else {
        None
    }
}

// Whether the bytes of w are next.
// A text and a place within it stay two parameters: names and variables are kept by their place in the whole text, which what is left of it, as the readers of a hand-in take it, would not show.
pub fn at_bytes(text: &[u8], at: usize, w: &[u8]) -> bool
    requires { at ≤ length text.now }
    ensures { NextBytes text.now at w.now result }
{
    text[at..].starts_with(w)
}

// Where the bytes of w end, if they are next.
// The text and the place stay apart, as in `at_bytes`.
pub fn past_bytes(text: &[u8], at: usize, w: &[u8]) -> Option<usize>
    requires { at ≤ length text.now }
    ensures { MatchOption result (after w.now (drop at text.now) ≡ none) (BytesEnd text.now at w.now) }
{
    if at_bytes(text, at, w) {
        Some(at + w.len())
    } else {
        None
    }
}

// Whether two words are the same.
// It stays a function beside `==`: its one proof joins std's equality with the grammar's for all that look up a word.
pub fn same_words(a: &[u8], b: &[u8]) -> bool
    ensures { result ≡ same a.now b.now }
{
    a == b
}

// How many letters and digits there are at the front.
fn word_len(left: &[u8]) -> usize
    ensures { result ≡ length (word left.now) }
{
    left.iter()
        .position(|b| !is_alphanumeric(*b))
        .unwrap_or(left.len())
}

// Where the word that is next ends.
// The text and the place stay apart, as in `at_bytes`.
pub fn word_end(text: &[u8], at: usize) -> usize
    requires { at ≤ length text.now }
    ensures { WordEnd text.now at result }
{
    at + word_len(&text[at..])
}

// Where the line that is next ends, if row 2 does not refuse it.
pub fn line_end(text: &[u8], at: usize) -> Option<usize>
    requires { at < length text.now }
    ensures { MatchOption result (BadLine text.now at) (LineEnd text.now at) }
{
    let n = text[at..].iter().position(|b| !is_allowed(*b))?;
    (text[at + n] == b'\n').then_some(at + n)
}

// Whether a word of letters and digits is a name.
fn is_name(word: &[u8]) -> bool
    requires { every alphanumeric word.now ≡ true }
    ensures { result ≡ named word.now }
{
    if word.is_empty() || NAME < word.len() || same_words(word, b"not") {
        return false;
    }
    word[0].is_ascii_alphabetic()
}

// Where the name that is next ends.
// The text and the place stay apart, as in `at_bytes`.
pub fn name_end(text: &[u8], at: usize) -> Option<usize>
    requires { at ≤ length text.now }
    ensures { MatchOption result (name (drop at text.now) ≡ none) (NameEnd text.now at) }
{
    let end = word_end(text, at);
    is_name(&text[at..end]).then_some(end)
}
