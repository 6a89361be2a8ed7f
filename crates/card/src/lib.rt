// The layout card and checks 1 to 6: the card by value, the answer of its admission, and where its numbers stand when it is packed. There are no functions.
#![tactic(auto)]

use swizzle::Swizzle;

// The axes are 0 to 7.
pub const LAST_AXIS: u64 = 7;

// The largest length of an axis, and the most copies.
pub const MOST_LENGTH: u64 = 65536;

pub const MOST_COPIES: u64 = 64;

// Above every limit of a product: products are told apart below it.
pub const BEYOND: u64 = 4294967296;

// An extent, a stride and an axis.
#[derive(Clone, Copy)]
pub struct Iter {
    pub extent: u64,
    pub stride: i64,
    pub axis: u64,
}

// A counted list of iters: the first `count` of them. The shard is one, and so is the replica.
#[derive(Clone, Copy)]
pub struct Iters {
    pub at: [Iter; 8],
    pub count: u64,
}

// A layout card. Each shard iter may carry a reuse mark; those past the count are ignored. The offset has
// one number per axis, and so have the lengths of the space.
#[derive(Clone, Copy)]
pub struct Card {
    pub shard: Iters,
    pub marks: [bool; 8],
    pub replica: Iters,
    pub offset: [i64; 8],
    pub lengths: [u64; 8],
    pub swizzle: Swizzle,
}

// Packed, a card's numbers are two arrays. The unsigned ones are seven columns of eight: the extents and the
// axes of the shard, which is list 0, those of the replica, which is list 1, the lengths, then the two
// counts, M, B, S and the sizes, and last the marks, 1 or 0. The signed ones are three: the strides of each list, and the offset.
pub const SHARD: usize = 0;

pub const REPLICA: usize = 1;

pub const LENGTHS: usize = 32;

pub const COUNTS: usize = 40;

pub const M: usize = 42;

pub const B: usize = 43;

pub const S: usize = 44;

pub const ELEMENTS: usize = 45;

pub const COPIES: usize = 46;

pub const CELLS: usize = 47;

pub const MARKS: usize = 48;

pub const OFFSET: usize = 16;
