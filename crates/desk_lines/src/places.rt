// Where the numbers of a question stand on its line, counted from 0, and which of them may have a sign.

// The numbers of a line, each in the form that its place has: two's complement where a sign may stand. The
// longest line has two cards, a count, 256 numbers and two lengths; the last two places keep the marks.
pub type Kept = [u64; 375];

// A list of iters begins with its count; then come extent, stride and axis of each. These are the
// places of the first iter, and how many numbers further on the next one stands.
pub const EXTENT: usize = 1;

pub const STRIDE: usize = 2;

pub const AXIS: usize = 3;

pub const ITER: usize = 3;

// A card: the shard, with eight iters, the replica, with four, the offsets, the lengths, and M, B, S.
pub const SHARD: usize = 0;

pub const REPLICA: usize = SHARD + 1 + 8 * ITER;

pub const OFFSETS: usize = REPLICA + 1 + 4 * ITER;

pub const LENGTHS: usize = OFFSETS + 8;

pub const SWIZZLE: usize = LENGTHS + 8;

// How many numbers a card has, and where the first and the second of a line begin.
pub const CARD: usize = SWIZZLE + 3;

pub const FIRST: usize = 0;

pub const SECOND: usize = CARD;

// The reuse marks of the first card and, after them, of the second: the first numbers of a line whose word has
// a star, kept behind all others, so that the card begins the line as it does without a star; 0 there is no mark.
pub const MARKS: usize = 373;

// After the card of `place`: the shape and the coordinates, each a count and eight numbers, and how
// much memory is lent.
pub const SHAPE: usize = CARD;

pub const COORDINATES: usize = SHAPE + 9;

pub const PLACE_LENT: usize = COORDINATES + 9;

// After the shard, the replica and the offsets of `write`, which has no lengths and no swizzle.
pub const WRITE_LENT: usize = LENGTHS;

// After the card of `verdict`.
pub const VERDICT_LENT: usize = CARD;

// After the card of `block`: how long the note is, its seed, and how much memory is lent.
pub const NOTE_LENGTH: usize = CARD;

pub const SEED: usize = NOTE_LENGTH + 1;

pub const BLOCK_LENT: usize = SEED + 1;

// After the two cards of `carry`: how many numbers the plan has, and these. Behind them stands how much memory
// is lent to each of the two tables.
pub const COUNT: usize = 2 * CARD;

pub const CARRIED: usize = COUNT + 1;

// After the two cards of `plan`: how much memory is lent to the plan, and to each of the two tables.
pub const PLAN_LENT: usize = 2 * CARD;

pub const TABLES_LENT: usize = PLAN_LENT + 1;

// After the bar of `read`: a layout's marks, behind its offsets, and how many numbers it has.
pub const LAYOUT_MARKS: usize = OFFSETS + 8;

pub const LAYOUT: usize = LAYOUT_MARKS + 8;

// After the bar of `page`: a card's marks, the length of the note and its digest, and how many numbers these are.
pub const CARD_MARKS: usize = CARD;

pub const NOTED: usize = CARD_MARKS + 8;

pub const NOTE_DIGEST: usize = NOTED + 1;

pub const PAGE: usize = NOTE_DIGEST + 1;

// After the card of `owner`: the coordinates of the asked cell.
pub const CELL: usize = CARD;

pub const OWNER_LENT: usize = CELL + 8;

// `stretch`.
pub const STRETCH_LENGTHS: usize = 0;

pub const STRETCH_AXIS: usize = STRETCH_LENGTHS + 8;

pub const STRETCH_COORDINATES: usize = STRETCH_AXIS + 1;

pub const STRETCH_LENT: usize = STRETCH_COORDINATES + 8;

// `canonical`, after major-ness, mode, bits, m, k, LBO, SBO and the length of axis m.
pub const CANONICAL_LENT: usize = 8;

// `mask`, after M, N and the descriptor.
pub const MASK_LENT: usize = 3;

// The twelve fields of a descriptor, counted from the first of them: after the bar of `fields`, and on
// the line of `descriptor`.
pub const START_COUNTS: usize = 0;

pub const FIRST_SPANS: usize = START_COUNTS + 4;

pub const NON_ZERO: usize = FIRST_SPANS + 4;

pub const SKIP_SPAN: usize = NON_ZERO + 1;

pub const USE_SPAN: usize = SKIP_SPAN + 1;

pub const SHIFT: usize = USE_SPAN + 1;

pub const FIELDS: usize = SHIFT + 1;

// Where the first field stands on the line of `descriptor`, after M.
pub const WRITTEN: usize = 1;

// Whether a number of a list of iters is a stride.
fn is_stride(i: usize) -> bool {
    i % ITER == STRIDE
}

// Whether a number of a card may have a sign: a stride or an offset.
fn is_signed(i: usize) -> bool {
    if i < REPLICA {
        return is_stride(i - SHARD);
    }
    if i < OFFSETS {
        return is_stride(i - REPLICA);
    }
    i < LENGTHS
}

// Whether a number may have a sign on a line that begins with so many cards, one or two of them.
pub fn may_be_below(place: usize, cards: usize) -> bool {
    if place < CARD {
        return (0 < cards) & is_signed(place);
    }
    (1 < cards) & is_signed(place - CARD)
}
