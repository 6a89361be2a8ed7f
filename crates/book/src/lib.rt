// The layout book: the 512 bytes of a card with a note, what a block holds, and the orders of reading and writing; any changed byte is noticed.
// Here are the answers and where the parts of a block stand; the definitions are in specs/. There are no functions.
#![tactic(auto)]

use answers::Refusal;
use card::Card;

// A block has so many bytes; its check stands in the last four, and is the sum of those before modulo a prime.
pub const BLOCK: usize = 512;

pub const CHECK: usize = 508;

pub const MODULUS: u64 = 65521;

// The note begins here, and is of at most so many bytes.
pub const NOTE: usize = 216;

pub const MOST_NOTE: usize = 292;

// What reading a block gives beside its note: the answer, and the card.
#[derive(Clone, Copy)]
pub struct Page {
    pub answer: Result<(), Refusal>,
    pub card: Card,
}
