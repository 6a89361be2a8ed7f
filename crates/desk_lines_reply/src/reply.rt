// Replies to lines, before they are text.
ghost use Rattle.std.specs.Prelude.{◌≡◌};

use crate::lent;
use answers::Numbers;
use desk_lines::places;

// How a reply is put.
#[derive(Clone, Copy)]
pub enum Form {
    // `?`, to a line that is no question
    Unknown,
    // the number and the details
    Plain,
    // these, and after a bar the values
    Barred,
    // so too, the values those of a layout or a card, which have signs in two's complement
    Signed,
    // these, and after the values a text
    Written,
    // the number and the details, and after a bar a text
    Text,
}

// What a line is answered; the values are the first `count`. A text stands behind the first of them, eight bytes
// to a value, the first the lowest, and is as long as A says, or where it stands alone as the first value says: a reply is copied where it is returned, so it has no
// room that most replies leave empty.
#[derive(Clone, Copy)]
pub struct LineReply {
    pub form: Form,
    // numbers to print, whatever they say
    pub answer: Numbers,
    pub count: usize,
    pub values: [u64; 80],
}

// An answer in this form, with so many values after it.
pub fn valued(form: Form, answer: Numbers, count: usize, values: [u64; 80]) -> LineReply
    ensures { (result.answer ≡ answer) × (result.count ≡ count) × (result.values ≡ values) }
{
    LineReply {
        form,
        answer,
        count,
        values,
    }
}

// The reply to a line that is no question.
pub fn unknown() -> LineReply {
    valued(Form::Unknown, answers::answer(0, 0, 0, 0), 0, [0; 80])
}

// An answer with nothing after it.
pub fn plain(answer: Numbers) -> LineReply {
    valued(Form::Plain, answer, 0, [0; 80])
}

// An answer and each lent byte or entry.
pub fn each<T: Copy + Into<u64>>(answer: Numbers, count: usize, from: &[T; 64]) -> LineReply
    ensures { (result.answer ≡ answer) × (result.count ≡ count) }
{
    let mut values = [0u64; 80];
    for (i, lent) in from.iter().enumerate() {
        values[i] = (*lent).into();
    }
    valued(Form::Barred, answer, count, values)
}

// An answer and one value.
fn one(answer: Numbers, value: u64) -> LineReply {
    let mut values = [0u64; 80];
    values[0] = value;
    valued(Form::Barred, answer, 1, values)
}

// An answer and the digest of lent entries.
pub fn digest(answer: Numbers, from: &[u32]) -> LineReply {
    one(answer, lent::digest(from))
}

// An answer and the digests of two lent tables.
pub fn digests(answer: Numbers, first: &[u32], second: &[u32]) -> LineReply {
    let mut values = [0u64; 80];
    values[0] = lent::digest(first);
    values[1] = lent::digest(second);
    valued(Form::Barred, answer, 2, values)
}

// An answer and the digests of a lent plan and of two lent tables.
pub fn planned(answer: Numbers, plan: &[u64], first: &[u32], second: &[u32]) -> LineReply {
    let mut values = [0u64; 80];
    values[0] = lent::digest_plan(plan);
    values[1] = lent::digest(first);
    values[2] = lent::digest(second);
    valued(Form::Barred, answer, 3, values)
}

// An answer, LBO and SBO as reported, and the digest of lent entries.
pub fn encoded(answer: Numbers, lbo: u64, sbo: u64, from: &[u32]) -> LineReply {
    let mut values = [0u64; 80];
    values[0] = lbo;
    values[1] = sbo;
    values[2] = lent::digest(from);
    valued(Form::Barred, answer, 3, values)
}

// An answer and the twelve fields of a descriptor: start counts, first spans and what all share.
pub fn fields(answer: Numbers, counts: [u8; 4], spans: [bool; 4], shared: [u64; 4]) -> LineReply {
    let mut values = [0u64; 80];
    for i in 0..4 {
        values[places::START_COUNTS + i] = u64::from(counts[i]);
        values[places::FIRST_SPANS + i] = u64::from(spans[i]);
        values[places::NON_ZERO + i] = shared[i];
    }
    valued(Form::Barred, answer, places::FIELDS, values)
}

// An answer and the digest of lent bytes.
pub fn digest_bytes(answer: Numbers, from: &[u8]) -> LineReply {
    one(answer, lent::digest_bytes(from))
}

// A value, and behind it the first bytes of a text, at most 512.
fn with_text(value: u64, from: &[u8], length: u64) -> [u64; 80] {
    let mut values = [0u64; 80];
    values[0] = value;
    for (i, b) in from.iter().take(512).enumerate() {
        if length <= i as u64 {
            break;
        }
        let place = 1 + i / 8;
        values[place] = values[place] | (u64::from(*b) << (i % 8 * 8));
    }
    values
}

// The digest of lent bytes, and at number 0 the text in them.
pub fn written(answer: Numbers, from: &[u8]) -> LineReply {
    if answer.number != 0 {
        return digest_bytes(answer, from);
    }
    let values = with_text(lent::digest_bytes(from), from, answer.a);
    valued(Form::Written, answer, 1, values)
}

// At number 0 a text of so many bytes, else nothing after the bar.
pub fn text(answer: Numbers, length: u64, from: &[u8]) -> LineReply {
    if answer.number != 0 {
        return valued(Form::Barred, answer, 0, [0; 80]);
    }
    valued(Form::Text, answer, 0, with_text(length, from, length))
}
