// The words of the program desk that ask of no card: swizzles, banks, fragments and masks.
#![tactic(auto)]

pub mod fragments;
pub mod masks;
pub mod swizzles;
