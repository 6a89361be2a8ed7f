// The numbers of a line of the program desk: where those of each question stand, and several of them at once.
#![tactic(auto)]

pub mod numbers;
pub mod places;
