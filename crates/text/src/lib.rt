// Lines in, decimals, text out: what a program reads its input and writes its output with.
#![tactic(auto)]

pub mod decimal;
pub mod input;
pub mod output;
