// What the placement of one element comes to, in the order of checks: a shape, coordinates in it, and the answer. There are no functions.
#![tactic(auto)]

// A counted list of numbers: a shape, or coordinates in one.
#[derive(Clone, Copy)]
pub struct Tuple {
    pub at: [u64; 8],
    pub count: u64,
}
