// The words on the owner table of a card: verdict, owner, stretch. One buffer is lent for all lines, no
// more of it than a line asks for, so nothing is cleared; what it is long is the program's own limit.
use desk_cards::cards;
use desk_lines::numbers::eight;
use desk_lines::places;
use desk_lines::places::Kept;
use desk_lines_reply::lent::{TABLE, fill};
use desk_lines_reply::reply;
use desk_lines_reply::reply::LineReply;

// The verdict that a line asks for, in entries as they are lent.
fn ask_verdict(numbers: &Kept, lent: &mut [u32]) -> LineReply {
    fill(lent, TABLE);
    let verdict = verdict::judge(cards::first(numbers), lent);
    reply::digest(answers::in_numbers(verdict), lent)
}

// verdict CARD length
pub fn verdict(numbers: &Kept, lent: &mut [u32]) -> LineReply {
    let asked = numbers[places::VERDICT_LENT];
    if (lent.len() as u64) < asked {
        return reply::unknown();
    }
    let length = asked as usize;
    ask_verdict(numbers, &mut lent[..length])
}

// The owner that a line asks for, in entries as they are lent.
fn ask_owner(numbers: &Kept, lent: &mut [u32]) -> LineReply {
    fill(lent, TABLE);
    let owner = verdict::owner_of(cards::first(numbers), eight(numbers, places::CELL), lent);
    reply::digest(answers::in_numbers(owner), lent)
}

// owner CARD eight coordinates, length
pub fn owner(numbers: &Kept, lent: &mut [u32]) -> LineReply {
    let asked = numbers[places::OWNER_LENT];
    if (lent.len() as u64) < asked {
        return reply::unknown();
    }
    let length = asked as usize;
    ask_owner(numbers, &mut lent[..length])
}

// The answer of a stretch, and the digest of the part that is handed back.
fn show_stretch(numbers: &Kept, lent: &[u32]) -> LineReply {
    let lengths = eight(numbers, places::STRETCH_LENGTHS);
    let axis = numbers[places::STRETCH_AXIS];
    let coordinates = eight(numbers, places::STRETCH_COORDINATES);
    let located = stretch::locate_stretch(lent, lengths, axis, coordinates);
    let part = stretch::stretch(lent, lengths, axis, coordinates);
    reply::digest(answers::in_numbers(located), part)
}

// The stretch that a line asks for, in entries as they are lent.
fn ask_stretch(numbers: &Kept, lent: &mut [u32]) -> LineReply {
    fill(lent, TABLE);
    show_stretch(numbers, lent)
}

// stretch eight lengths, axis, eight coordinates, length
pub fn stretch(numbers: &Kept, lent: &mut [u32]) -> LineReply {
    let asked = numbers[places::STRETCH_LENT];
    if (lent.len() as u64) < asked {
        return reply::unknown();
    }
    let length = asked as usize;
    ask_stretch(numbers, &mut lent[..length])
}
