// A run of a packed card's elements that is to be claimed: definitions in specs/, laws in proofs/. There are no functions.
#![tactic(auto)]

use answers::Flat;

// Elements that follow each other: the first, and how many they are.
#[derive(Clone, Copy)]
pub struct Run {
    pub first: Flat,
    pub length: u64,
}
