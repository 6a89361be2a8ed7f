// From element to cell: the rules 1 to 5 and the copies of an element as definitions, with the types that they speak of.
#![tactic(auto)]

use answers::Cell;

// Where coordinates are: at a number, row-major, or past a size, the smallest such place.
// No Result: neither is a failure, both answer where the coordinates are.
#[derive(Clone, Copy)]
pub enum Position {
    At(u64),
    Past(u64),
}

// Where a copy goes: its cell, or the smallest axis on which it lies outside the space.
// No Result: outside is an answer too, which the caller may refuse.
#[derive(Clone, Copy)]
pub enum Spot {
    Inside(Cell),
    Outside(u64),
}
