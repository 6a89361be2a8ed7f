// Registers as they stand in a caller's memory, by their bits: types, definitions and theorems. Numbers have every pattern of a
// not-a-number, where floats have one.
#![tactic(auto)]

// What a register has: nothing, the 32 bits of a single or the 64 of a double.
#[derive(Clone, Copy)]
pub enum Bits {
    Empty,
    Single(u32),
    Double(u64),
}
