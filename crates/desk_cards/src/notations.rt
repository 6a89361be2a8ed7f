// The words of the layout notation: read, write and the layout of a kind of fragment.
use crate::cards;
use crate::records::{layout_values, put_marks};
use answers::Numbers;
use desk_lines::places;
use desk_lines::places::Kept;
use desk_lines_reply::reply;
use desk_lines_reply::reply::{Form, LineReply};
use notation::Layout;

// What a lent byte is before the question, and the most that the program lends.
const LENT: u8 = 165;

const MOST_LENT: u64 = 1024;

// The reply to a reading: its answer, and the layout beside it.
fn shown(answer: Numbers, layout: Layout) -> LineReply {
    let marks = layout.marks;
    let mut values = layout_values(layout);
    put_marks(&mut values, places::LAYOUT_MARKS, marks);
    reply::valued(Form::Signed, answer, places::LAYOUT, values)
}

// read TEXT: all that follows the one space after the word
pub fn read(text: &[u8]) -> LineReply {
    let reading = reading::read(text);
    let answer = reading.answer;
    let layout = reading.layout;
    shown(answers::in_numbers(answer), layout)
}

// The text that a line asks for, in lent bytes.
fn ask_write(numbers: &Kept, lent: &mut [u8]) -> LineReply {
    let written = writing::write(cards::first(numbers), lent);
    reply::written(answers::in_numbers(written), lent)
}

// write shard, replica, offsets, length
pub fn write(numbers: &Kept) -> LineReply {
    let asked = numbers[places::WRITE_LENT];
    if MOST_LENT < asked {
        return reply::unknown();
    }
    let length = asked as usize;
    let mut lent = [LENT; 1024];
    ask_write(numbers, &mut lent[0..length])
}

// mma-layout kind: the text is written to bytes of the program's own, as many as any text has
pub fn mma_layout(numbers: &Kept) -> LineReply {
    let layout = mma::layout_of(numbers[0]);
    let answer = layout.answer;
    let card = layout.card;
    let mut text = [0u8; 1024];
    let written = answers::in_numbers(writing::write(card, &mut text));
    reply::text(answers::in_numbers(answer), written.a, &text)
}
