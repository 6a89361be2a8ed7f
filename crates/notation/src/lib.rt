// The layout notation: its grammar, what a text says, how a card is written, and why a reader can find the longest beginning.
// Here are what reading and writing answer, and where in a text the reader stands: types alone; the definitions are in specs/.
#![tactic(auto)]

use answers::Refusal;
use card::Iters;

// What follows the number of a stride or an offset: nothing, an axis, or an axis and a star.
#[derive(Clone, Copy)]
pub enum NamedAxis {
    Bare,
    At(u64),
    Marked(u64),
}

// A stride or an offset as it is written.
#[derive(Clone, Copy)]
pub struct Step {
    // the sign, and no flag of the size
    pub negative: bool,
    pub size: u64,
    pub place: NamedAxis,
}

// What a text of the notation gives of a card: all but the lengths and the swizzle.
#[derive(Clone, Copy)]
pub struct Layout {
    pub shard: Iters,
    pub marks: [bool; 8],
    pub replica: Iters,
    pub offset: [i64; 8],
}

// What reading a text gives: the answer, and the layout beside it.
#[derive(Clone, Copy)]
pub struct Reading {
    pub answer: Result<(), Refusal>,
    pub layout: Layout,
}

// Where in the text the reader stands.
#[derive(Clone, Copy)]
pub enum Phase {
    First,
    Extent,
    Begun,
    Minus,
    Size,
    At,
    Tee,
    Named,
    Starred,
    Closed,
    Plus,
    Opened,
    Ended,
    Stuck,
}

// What is being read: the shard, a replica of several iters, a single one, or an offset.
#[derive(Clone, Copy)]
pub enum Part {
    Shard,
    Several,
    Single,
    Offset,
}

// The number that is being read, and the sign and the axis of a stride or an offset.
#[derive(Clone, Copy)]
pub struct Piece {
    pub value: u64,
    // the sign, and no flag of the size
    pub negative: bool,
    pub axis: u64,
}

// How far the part has been read: the least axis that may follow, its extents, and its strides or offsets.
#[derive(Clone, Copy)]
pub struct Stand {
    pub part: Part,
    pub from: u64,
    pub extents: usize,
    pub steps: usize,
}

// What a byte finishes: nothing, an extent, a stride or offset, or a part, since it begins another one.
#[derive(Clone, Copy)]
pub enum Event {
    Same,
    Extent,
    Step(NamedAxis),
    Part(Part),
}

// What a byte leads to: `owed` is the place in the reader's words of the bytes that have to come next.
#[derive(Clone, Copy)]
pub struct Move {
    pub phase: Phase,
    pub owed: usize,
    pub piece: Piece,
    pub event: Event,
}

// Where the reader stands.
#[derive(Clone, Copy)]
pub struct Reader {
    pub phase: Phase,
    pub owed: usize,
    pub piece: Piece,
    pub spot: Stand,
}
