// The words of the subject mask.
use answers::Numbers;
use descriptor::Fields;
use desk_lines::numbers::{byte, within};
use desk_lines::places;
use desk_lines::places::Kept;
use desk_lines_reply::reply;
use desk_lines_reply::reply::LineReply;

// The most bytes that the program lends to a mask.
const MOST_LENT: u64 = 64;

// What a lent byte is before the question.
const LENT: u8 = 165;

// The start counts that a line gives.
fn counts(numbers: &Kept) -> [u8; 4] {
    [
        byte(numbers[places::WRITTEN + places::START_COUNTS]),
        byte(numbers[places::WRITTEN + places::START_COUNTS + 1]),
        byte(numbers[places::WRITTEN + places::START_COUNTS + 2]),
        byte(numbers[places::WRITTEN + places::START_COUNTS + 3]),
    ]
}

// The first spans that a line gives.
fn spans(numbers: &Kept) -> [bool; 4] {
    [
        numbers[places::WRITTEN + places::FIRST_SPANS] == 1,
        numbers[places::WRITTEN + places::FIRST_SPANS + 1] == 1,
        numbers[places::WRITTEN + places::FIRST_SPANS + 2] == 1,
        numbers[places::WRITTEN + places::FIRST_SPANS + 3] == 1,
    ]
}

// The fields that a line gives.
fn given(numbers: &Kept) -> Fields {
    Fields {
        start_counts: counts(numbers),
        first_spans: spans(numbers),
        non_zero: numbers[places::WRITTEN + places::NON_ZERO] == 1,
        skip_span: byte(numbers[places::WRITTEN + places::SKIP_SPAN]),
        use_span: byte(numbers[places::WRITTEN + places::USE_SPAN]),
        shift: numbers[places::WRITTEN + places::SHIFT],
    }
}

// Whether counts and spans are bytes, and one-bit fields 0 or 1.
fn are_fields(numbers: &Kept) -> bool {
    within(
        numbers,
        places::WRITTEN + places::START_COUNTS,
        places::WRITTEN + places::FIRST_SPANS,
        255,
    ) & within(
        numbers,
        places::WRITTEN + places::FIRST_SPANS,
        places::WRITTEN + places::SKIP_SPAN,
        1,
    ) & within(
        numbers,
        places::WRITTEN + places::SKIP_SPAN,
        places::WRITTEN + places::SHIFT,
        255,
    )
}

// The fields that all sub-masks share, as numbers.
fn shared(fields: Fields) -> [u64; 4] {
    [
        u64::from(fields.non_zero),
        u64::from(fields.skip_span),
        u64::from(fields.use_span),
        fields.shift,
    ]
}

// fields descriptor
pub fn fields(numbers: &Kept) -> LineReply {
    let reading = descriptor_bits::read_descriptor(numbers[0]);
    let answer = reading.answer;
    let fields = reading.fields;
    let counts = fields.start_counts;
    let spans = fields.first_spans;
    reply::fields(answers::in_numbers(answer), counts, spans, shared(fields))
}

// descriptor M, with the twelve fields
pub fn descriptor(numbers: &Kept) -> LineReply {
    if are_fields(numbers) {
        let written = descriptor_bits::write_descriptor(numbers[0], given(numbers));
        return reply::plain(answers::in_numbers(written));
    }
    reply::unknown()
}

// The mask that a line asks for, in lent bytes.
fn ask_mask(numbers: &Kept, lent: &mut [u8]) -> Numbers {
    let generated = mask::generate_mask(numbers[0], numbers[1], numbers[2], lent);
    answers::in_numbers(generated)
}

// mask M N descriptor length
pub fn mask(numbers: &Kept) -> LineReply {
    let asked = numbers[places::MASK_LENT];
    if MOST_LENT < asked {
        return reply::unknown();
    }
    let length = asked as usize;
    let mut lent = [LENT; 64];
    let answer = ask_mask(numbers, &mut lent[0..length]);
    reply::each(answer, length, &lent)
}
