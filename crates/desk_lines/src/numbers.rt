// The numbers of a line, several at once. Public, with a requires, only for desk, whose lines
// have these places.
ghost use Rattle.std.specs.Prelude.{◌≤◌};

use crate::places;
use crate::places::Kept;

// Eight numbers from a place of a line on, which has that many. Public, with a requires, for the
// program above; so are the next three.
pub fn eight(numbers: &Kept, from: usize) -> [u64; 8]
    requires { from ≤ 367 }
{
    [
        numbers[from],
        numbers[from + 1],
        numbers[from + 2],
        numbers[from + 3],
        numbers[from + 4],
        numbers[from + 5],
        numbers[from + 6],
        numbers[from + 7],
    ]
}

// A count and eight numbers.
pub fn nine(numbers: &Kept, from: usize) -> [u64; 9]
    requires { from ≤ 366 }
{
    [
        numbers[from],
        numbers[from + 1],
        numbers[from + 2],
        numbers[from + 3],
        numbers[from + 4],
        numbers[from + 5],
        numbers[from + 6],
        numbers[from + 7],
        numbers[from + 8],
    ]
}

// The numbers of a card.
pub fn card(numbers: &Kept, from: usize) -> [u64; 57]
    requires { from ≤ 318 }
{
    let mut all = [0u64; places::CARD];
    all.copy_from_slice(&numbers[from..from + places::CARD]);
    all
}

// Whether the numbers from a place up to another are at most a limit.
pub fn within(numbers: &Kept, from: usize, to: usize, limit: u64) -> bool
    requires { to ≤ 375 }
{
    for i in from..to {
        if limit < numbers[i] {
            return false;
        }
    }
    true
}

// A number kept to a byte.
pub fn byte(n: u64) -> u8 {
    (n % 256) as u8
}
