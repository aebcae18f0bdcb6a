// Asbestos labels: the table of send levels. The system over messages and the model that a desk writes for it are in specs/, and that the two say the same is in proofs/.
#![tactic(auto)]

ghost use Rattle.std.specs.Prelude.{◌≡◌, ◌<◌};
ghost use Rattle.asbestos.specs.Messages.{levels, resulting_level};

// The levels: star, 0, 1, 2, 3, given as the numbers 0 to 4.
pub const LEVELS: u32 = 5;

// The send level after a message: a row per receiver and a column per sender.
const TABLE: [[u32; 5]; 5] = [
    [0, 0, 0, 0, 0],
    [1, 1, 2, 3, 4],
    [2, 2, 2, 3, 4],
    [3, 3, 3, 3, 4],
    [4, 4, 4, 4, 4],
];

// The receiver's send level after a message, by both send levels.
// The levels stay numbers: they are given so, and are places in the table.
pub fn resulting(receiver: u32, sender: u32) -> u32
    requires { (receiver < levels) × (sender < levels) }
    ensures { result ≡ resulting_level receiver sender }
{
    TABLE[receiver as usize][sender as usize]
}
