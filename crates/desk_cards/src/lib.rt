// The words of the program desk that ask of a card and of no owner table: the placement of an element, the layout notation and the layout book.
#![tactic(auto)]

pub mod books;
pub mod cards;
pub mod notations;
pub mod placements;
pub mod records;
