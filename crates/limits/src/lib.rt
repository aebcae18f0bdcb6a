// The limits of the documents: each figure stands here, under its name, and everywhere else the name.
#![tactic(auto)]

// The bytes of a text.
pub const TEXT: usize = 16_384;

// The letters and digits of a name or variable.
pub const NAME: usize = 16;

// The `state` lines.
pub const STATES: usize = 24;

// The `rel` lines, and those of them with two variables.
pub const RELS: usize = 16;

pub const PAIRS: usize = 6;

// The `rule`, `new` and `next` lines together.
pub const CLAUSES: usize = 64;

// The names of a list.
pub const LIST: usize = 24;

// The literals of a body or a stage.
pub const BODY: usize = 8;

// The stages of a question.
pub const STAGES: usize = 4;

// The variables of a line's body with its head, or of a stage.
pub const VARIABLES: usize = 3;

// The variables that are carried.
pub const CARRIED: usize = 2;

// The bytes of the work area, and the places of a run.
pub const WORK: usize = 65_536;

pub const RUN: usize = 9_344;

// The bytes of a hand-in.
pub const HANDIN: usize = 524_288;

// The objects of a database that is replayed.
pub const OBJECTS: usize = 255;

// Stands for no object.
// 255 stays for no object: these words are the run table that C lends.
pub const NONE: u32 = 255;

// The reachable atomic states that are not empty.
pub const ATOMIC: usize = 127;

// The reachable atomic states, with the empty one.
pub const LISTED: usize = ATOMIC + 1;

// The objects that may exist where a question is put anew.
pub const EARLIER: usize = OBJECTS - ATOMIC - CARRIED;

// The declared relations.
pub const DECLARED: usize = STATES + RELS;

// The literals of all lines.
pub const LITERALS: usize = (CLAUSES + STAGES) * BODY;

// The variables of an `ask` line.
pub const ASKED: usize = STAGES * VARIABLES;
