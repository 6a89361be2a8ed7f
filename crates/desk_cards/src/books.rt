// The words of the layout book: block and page.
use crate::cards;
use crate::records::{layout_values, put_lengths, put_marks};
use answers::Numbers;
use card::Card;
use desk_lines::numbers::byte;
use desk_lines::places;
use desk_lines::places::Kept;
use desk_lines_read::pairs;
use desk_lines_reply::lent::digest_bytes;
use desk_lines_reply::reply;
use desk_lines_reply::reply::{Form, LineReply};
use notation::Layout;

// What a lent byte is before the question, the most that the program lends, of a note too, and the largest seed.
const LENT: u8 = 165;

const MOST_LENT: u64 = 1024;

const MOST_SEED: u64 = 255;

// The note of a seed, as long as it can be.
fn note_of(seed: u64) -> [u8; 1024] {
    let mut note = [0u8; 1024];
    for (i, b) in note.iter_mut().enumerate() {
        *b = byte(seed % 256 + 7 * i as u64);
    }
    note
}

// The block that a line asks for, in lent bytes.
fn ask_block(numbers: &Kept, note: &[u8], lent: &mut [u8]) -> LineReply {
    let written = storing::write_block(cards::first(numbers), note, lent);
    reply::digest_bytes(answers::in_numbers(written), lent)
}

// block CARD, note length, seed, length
pub fn block(numbers: &Kept) -> LineReply {
    let noted = numbers[places::NOTE_LENGTH];
    let seed = numbers[places::SEED];
    let asked = numbers[places::BLOCK_LENT];
    if MOST_SEED < seed {
        return reply::unknown();
    }
    if MOST_LENT < noted {
        return reply::unknown();
    }
    if MOST_LENT < asked {
        return reply::unknown();
    }
    let note_length = noted as usize;
    let length = asked as usize;
    let note = note_of(seed);
    let mut lent = [LENT; 1024];
    ask_block(numbers, &note[0..note_length], &mut lent[0..length])
}

// The reply to a block that was read: its answer, the card, and the note's length and digest.
fn shown(answer: Numbers, card: Card, noted: u64, digest: u64) -> LineReply {
    let shard = card.shard;
    let marks = card.marks;
    let replica = card.replica;
    let offset = card.offset;
    let lengths = card.lengths;
    let mut values = layout_values(Layout {
        shard,
        replica,
        offset,
        marks,
    });
    put_lengths(&mut values, lengths);
    values[places::SWIZZLE] = card.swizzle.m;
    values[places::SWIZZLE + 1] = card.swizzle.b;
    values[places::SWIZZLE + 2] = card.swizzle.s;
    put_marks(&mut values, places::CARD_MARKS, marks);
    values[places::NOTED] = noted;
    values[places::NOTE_DIGEST] = digest;
    reply::valued(Form::Signed, answer, places::PAGE, values)
}

// The reply to a block.
fn read_page(block: &[u8]) -> LineReply {
    let page = storing::read_block(block);
    let answer = page.answer;
    let card = page.card;
    let note = storing::read_note(block);
    shown(
        answers::in_numbers(answer),
        card,
        note.len() as u64,
        digest_bytes(note),
    )
}

// page TEXT: pairs of hex digits after the one space after the word
pub fn page(digits: &[u8]) -> LineReply {
    let length = digits.len() / 2;
    if 1024 < length {
        return reply::unknown();
    }
    if !pairs::are_pairs(digits) {
        return reply::unknown();
    }
    let block = pairs::bytes(digits);
    read_page(&block[0..length])
}
