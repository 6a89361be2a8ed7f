// The canonical shared-memory layouts of source document 001 by one rule: the numbers that name one, the card that is built for it, and what is reported.
// There are no functions.
#![tactic(auto)]

use answers::Refusal;
use card::Card;
use judgement::Approved;

// The eight numbers that name a canonical layout: major-ness (0 K, 1 MN), mode, element bits, m and k, LBO and SBO in bytes, and the
// length of axis m. The mode is 0 (none), 1 (32B), 2 (64B) or 3 (128B), which is not the layout type of a shared-memory descriptor.
#[derive(Clone, Copy)]
pub struct Canonical {
    pub major: u64,
    pub mode: u64,
    pub bits: u64,
    pub m: u64,
    pub k: u64,
    pub lbo: u64,
    pub sbo: u64,
    pub length: u64,
}

// The card that is built, and whether one is: a card of zeros where it is refused.
#[derive(Clone, Copy)]
pub struct Built {
    pub answer: Result<(), Refusal>,
    pub card: Card,
}

// The verdict on the card, with LBO and SBO as a descriptor has them, both 0 where it is refused.
#[derive(Clone, Copy)]
pub struct Reported {
    pub verdict: Result<Approved, Refusal>,
    pub lbo: u64,
    pub sbo: u64,
}
