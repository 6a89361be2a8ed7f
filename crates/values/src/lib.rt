// Values dealt to the lanes of a warp and collected from them, document 02's request 1: types, definitions and theorems.
#![tactic(auto)]

// What a register reads as: empty, one single or one double.
#[derive(Clone, Copy)]
pub enum Register {
    Empty,
    Single(f32),
    Double(f64),
}

// A lane's .f64 holding: its A, its B and its two accumulators.
#[derive(Clone, Copy)]
pub struct Holding {
    pub a: f64,
    pub b: f64,
    pub first: f64,
    pub second: f64,
}
