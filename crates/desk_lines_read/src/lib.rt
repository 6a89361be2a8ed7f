// A line of the program desk is read by its rule and its word.
// Of a line 4,096 bytes and 375 numbers are kept, as many as the longest question, carry*, has; the last two places keep the marks. The array is lent to every
// line and cleared for none.
#![tactic(auto)]

pub mod pairs;
pub mod rule;
pub mod words;
