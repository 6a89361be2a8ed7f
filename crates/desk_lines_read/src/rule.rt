// The rule of a line: a word and then decimal numbers, parted by single spaces. A number is judged at
// its place and kept in one form there: as it is, and where a sign may stand in two's complement.
use desk_lines::places;
use desk_lines::places::Kept;
use std::num::wrapping_sub_u64;
use text::decimal;

// How far the numbers of a line are read: where the last of them ends, and the place after its own.
#[derive(Clone, Copy)]
pub struct Reached {
    pub end: usize,
    pub place: usize,
}

// A number as it stands: whether it has a minus, its value without it, and where it ends.
#[derive(Clone, Copy)]
struct Spelled {
    // the sign, and no flag of the value
    minus: bool,
    value: u64,
    end: usize,
}

// The value of digits, and where they end.
#[derive(Clone, Copy)]
struct Digits {
    value: u64,
    end: usize,
}

// From here on a number is past every signed one; with a minus it is the farthest below zero.
const HALF: u64 = 9223372036854775808;

// The digits from a place of a line up to a space or the line's end, if nothing else stands there and their
// number is below 2^64.
fn read_digits(line: &[u8], from: usize) -> Option<Digits> {
    let mut value: u64 = 0;
    for end in from..line.len() {
        let b = line[end];
        if b == b' ' {
            return Some(Digits { value, end });
        }
        value = decimal::with_byte(value, b)?;
    }
    Some(Digits {
        value,
        end: line.len(),
    })
}

// The number that begins at a place of a line. It has a digit; a zero that begins it stands alone, with
// neither a digit after it nor a minus before it; with a minus the number is not too far below zero.
fn read_number(line: &[u8], from: usize) -> Option<Spelled> {
    let minus = *line.get(from)? == b'-';
    let first = if minus { from + 1 } else { from };
    let begins = *line.get(first)?;
    let digits = read_digits(line, first)?;
    let zero = (begins == b'0') & (from + 1 < digits.end);
    if (digits.end <= first) | zero | (minus & (HALF < digits.value)) {
        return None;
    }
    Some(Spelled {
        minus,
        value: digits.value,
        end: digits.end,
    })
}

// The form of a number at a place of a line that begins with so many cards, if its place admits it. Where a
// sign may stand, a number without a minus from 2^63 on becomes 2^63 - 1, which is past every limit too.
fn judge(value: u64, minus: bool, place: usize, cards: usize) -> Option<u64> {
    if !minus & (value < HALF) {
        return Some(value);
    }
    if places::may_be_below(place, cards) {
        return Some(if minus {
            wrapping_sub_u64(0, value)
        } else {
            HALF - 1
        });
    }
    if minus {
        return None;
    }
    Some(value)
}

// Keeps the number that begins at a place of a line, at a place of its own: where it ends.
fn keep(line: &[u8], from: usize, cards: usize, place: usize, numbers: &mut Kept) -> Option<usize> {
    let number = read_number(line, from)?;
    let kept = judge(number.value, number.minus, place, cards)?;
    if numbers.len() <= place {
        return None;
    }
    numbers[place] = kept;
    Some(number.end)
}

// Reads the numbers of a line that begins with so many cards, from the space at a place of it on: they are
// kept in their order from a place of their own up to an end. Public for the words.
pub fn read(
    line: &[u8],
    from: usize,
    cards: usize,
    first: usize,
    end: usize,
    numbers: &mut Kept,
) -> Option<Reached> {
    let mut at = from;
    for place in first..end {
        if line.len() <= at {
            return Some(Reached { end: at, place });
        }
        at = keep(line, at + 1, cards, place, numbers)?;
    }
    Some(Reached {
        end: at,
        place: end,
    })
}
