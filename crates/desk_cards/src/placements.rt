// The word place.
use crate::cards;
use answers::Numbers;
use desk_lines::numbers::nine;
use desk_lines::places;
use desk_lines::places::Kept;
use desk_lines_reply::lent::{TABLE, fill};
use desk_lines_reply::reply;
use desk_lines_reply::reply::LineReply;

// The most entries that the program lends to a placement.
const MOST_LENT: u64 = 64;

// The placement that a line asks for, in entries as they are lent.
fn ask_place(numbers: &Kept, lent: &mut [u32]) -> Numbers {
    fill(lent, TABLE);
    let shape = nine(numbers, places::SHAPE);
    let coordinates = nine(numbers, places::COORDINATES);
    let placed = placement::place(
        cards::first(numbers),
        c_tuple::tuple(&shape),
        c_tuple::tuple(&coordinates),
        lent,
    );
    answers::in_numbers(placed)
}

// place CARD dimensions, eight sizes, coordinates, eight coordinates, length
pub fn place(numbers: &Kept) -> LineReply {
    let asked = numbers[places::PLACE_LENT];
    if MOST_LENT < asked {
        return reply::unknown();
    }
    let length = asked as usize;
    let mut lent = [0u32; 64];
    let answer = ask_place(numbers, &mut lent[0..length]);
    reply::each(answer, length, &lent)
}
