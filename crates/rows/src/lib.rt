// The rows of the table of refusals, by name; no text and no call is refused 13.
#![tactic(auto)]

ghost use Rattle.std.specs.Prelude.{◌≡◌};
ghost use Rattle.rows.specs.Rows.{number_of};

// Why a text or a call is refused.
#[derive(Clone, Copy, PartialEq, Eq, PartialOrd, Ord)]
pub enum Row {
    Size = 1,
    Byte = 2,
    Shape = 3,
    Count = 4,
    Again = 5,
    Kind = 6,
    Arity = 7,
    Negation = 8,
    Variables = 9,
    End = 10,
    Carried = 11,
    Lent = 12,
    Length = 14,
    States = 15,
    Place = 16,
    NoVariable = 17,
    Objects = 18,
    Lines = 19,
    Processes = 20,
    Moves = 21,
    Question = 22,
    Unreachable = 23,
}

impl Row {
    // The row's number in the table.
    // It stays a method: `row.number()` says what the number is, and `u32::from(row)` would not.
    pub fn number(self) -> u32
        ensures { result ≡ number_of self }
    {
        self as u32
    }

    // The refusal with this row, where no line is to blame.
    pub fn refusal(self) -> Refusal
        ensures { (result.row ≡ self) × (result.line ≡ 0) }
    {
        Refusal { row: self, line: 0 }
    }
}

// A row that refuses a text or a call, and the line that it stands on; 0 where no line is to blame.
// 0 stays for no line: the tables of refusals say "line 0", and C is told it and the listing prints it so.
#[derive(Clone, Copy)]
pub struct Refusal {
    pub row: Row,
    pub line: u32,
}
