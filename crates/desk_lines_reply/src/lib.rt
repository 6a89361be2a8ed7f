// Replies of the program desk: memory that is lent to a question, what is said of it, and the reply as text. The
// program itself asks the questions in between.
#![tactic(auto)]

pub mod lent;
pub mod print;
pub mod reply;
