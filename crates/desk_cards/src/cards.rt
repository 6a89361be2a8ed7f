// The cards of a line, with which the words on layouts begin, each the card that 57 numbers and the marks are, by the
// function that makes a card for C too.
use card::Card;
use desk_lines::places::Kept;
use desk_lines::{numbers, places};

// The first card of a line, and its marks. What `write` does not give of one, the lengths and the swizzle, is
// whatever stands there: its answer does not go by them.
pub fn first(line: &Kept) -> Card {
    let given = numbers::card(line, places::FIRST);
    c_card::card(&given, line[places::MARKS])
}

// The second card of a line, and its marks.
pub fn second(line: &Kept) -> Card {
    let given = numbers::card(line, places::SECOND);
    c_card::card(&given, line[places::MARKS + 1])
}
