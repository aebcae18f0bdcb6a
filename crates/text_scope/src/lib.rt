// The variables of a clause, a stage or a question: at most N, in order of first appearance, some of them marked.
#![tactic(auto)]

ghost use Rattle.std.specs.Prelude.{◌≡◌, false, ◌≤◌, ◌<◌, length, replicate, MatchOption};
ghost use Rattle.grammar.specs.Declarations.{member};
ghost use Rattle.grammar.specs.Words.{all_marked};
ghost use Rattle.text_scope.specs.Scopes.{blank, Valid, known_of, marks_of, Known, marking, added};

// A variable: where it stands first, and whether it is marked.
// The flag stays beside the place: both count, whether it is set or not.
#[derive(Clone, Copy)]
pub struct Variable {
    pub start: usize,
    pub end: usize,
    pub marked: bool,
}

// The variables so far.
// The count stays beside the array: memory is fixed, and the places behind it are not read.
#[derive(Clone, Copy)]
pub struct Scope<const N: usize> {
    pub count: usize,
    pub variables: [Variable; N],
}

// No variables.
pub fn empty<const N: usize>() -> Scope<N>
    ensures { (result.count ≡ 0) × (result.variables ≡ replicate N blank) }
{
    let blank = Variable {
        start: 0,
        end: 0,
        marked: false,
    };
    Scope {
        count: 0,
        variables: [blank; N],
    }
}

impl<const N: usize> Scope<N> {
    // The number of the variable with those bytes, if it is known.
    pub fn find(&self, text: &[u8], word: &[u8]) -> Option<usize>
        requires { Valid text.now self.now }
        ensures { MatchOption result (member word.now (known_of text.now self.now) ≡ false) (Known (known_of text.now self.now) word.now) }
    {
        self.variables[..self.count]
            .iter()
            .position(|v| text_scan::same_words(word, &text[v.start..v.end]))
    }

    // Whether each variable is marked.
    pub fn all_marked(&self) -> bool
        requires { (self.now.count ≤ N) × (length self.now.variables ≡ N) }
        ensures { result ≡ all_marked (marks_of self.now) }
    {
        self.variables[..self.count].iter().all(|v| v.marked)
    }

    // Variable i is marked.
    pub fn mark(&mut self, i: usize)
        requires { i < N }
        ensures { self.new ≡ marking self.old i }
    {
        self.variables[i].marked = true;
    }

    // One variable more, which stands first from start to end.
    pub fn add(&mut self, start: usize, end: usize, marked: bool)
        requires { self.old.count < N }
        ensures { self.new ≡ added self.old start end marked }
    {
        self.variables[self.count] = Variable { start, end, marked };
        self.count += 1;
    }
}
