// Reading a text of the layout notation: a shard, then a replica, then offsets, each by its tokens. Only whole lists are put into the layout.
#![tactic(auto)]

ghost use Rattle.std.specs.Prelude.{◌≡◌, pos, replicate, Ok};
ghost use Rattle.answers.specs.Refusals.{no_refusal};
ghost use Rattle.notation.specs.Promise.{no_iters, no_layout, ReadSays};
ghost use Rattle.notation.specs.Machine.{refused_at};
ghost use Rattle.reading.specs.Parts.{OffsetsAnswered, ReplicaAnswered, SeveralAnswered, SingleAnswered, PlusAnswered};

use answers::Refusal;
use card::{Iter, Iters};
use notation::{Layout, Reading};

// The places of what opens a shard and of what follows the R of a replica among the words of `reading_letters::expected`.
const OPEN: usize = 23;

const BRACKET: usize = 32;

fn with_replica(layout: Layout, replica: Iters) -> Layout
    ensures { result ≡ record { shard = layout.shard; marks = layout.marks; replica = replica; offset = layout.offset } }
{
    let shard = layout.shard;
    let marks = layout.marks;
    let offset = layout.offset;
    Layout {
        shard,
        marks,
        replica,
        offset,
    }
}

// A layout of zeros.
fn no_layout() -> Layout
    ensures { result ≡ no_layout }
{
    let none = Iter {
        extent: 0,
        stride: 0,
        axis: 0,
    };
    let empty = Iters {
        at: [none; 8],
        count: 0,
    };
    Layout {
        shard: empty,
        marks: [false; 8],
        replica: empty,
        offset: [0; 8],
    }
}

// The layout of a text that ends after its shard.
fn shard_alone(shard: Iters, marks: [bool; 8]) -> Layout
    ensures { result ≡ record { shard = shard; marks = marks; replica = no_iters; offset = replicate 8 (pos 0) } }
{
    let none = Iter {
        extent: 0,
        stride: 0,
        axis: 0,
    };
    Layout {
        shard,
        marks,
        replica: Iters {
            at: [none; 8],
            count: 0,
        },
        offset: [0; 8],
    }
}

// No text goes on after so many bytes.
fn refuse(beginning: usize) -> Reading
    ensures { result ≡ refused_at beginning }
{
    Reading {
        answer: Err(Refusal::Notation {
            beginning: beginning as u64,
        }),
        layout: no_layout(),
    }
}

fn with_offset(layout: Layout, offset: [i64; 8]) -> Layout
    ensures { result ≡ record { shard = layout.shard; marks = layout.marks; replica = layout.replica; offset = offset } }
{
    let shard = layout.shard;
    let marks = layout.marks;
    let replica = layout.replica;
    Layout {
        shard,
        marks,
        replica,
        offset,
    }
}

// A layout that has been read to its end.
fn done(layout: Layout) -> Reading
    ensures { result ≡ record { answer = no_refusal; layout = layout } }
{
    Reading {
        answer: Ok(()),
        layout,
    }
}

// From the first offset on.
fn with_offsets(text: &[u8], from: usize, layout: Layout) -> Reading
    ensures { OffsetsAnswered text.now from layout result }
{
    let last = reading_lists::offsets(text, from);
    let offset = last.offset;
    if !last.fits {
        return refuse(last.next);
    }
    done(with_offset(layout, offset))
}

// After the replica.
fn after_replica(text: &[u8], from: usize, layout: Layout) -> Reading
    ensures { ReplicaAnswered text.now from layout result }
{
    if text.len() <= from {
        return done(layout);
    }
    if text[from] != b'+' {
        return refuse(from);
    }
    with_offsets(text, from + 1, layout)
}

// A replica of several iters, after its parenthesis.
fn several(text: &[u8], from: usize, layout: Layout) -> Reading
    ensures { SeveralAnswered text.now from layout result }
{
    let part = reading_lists::read_list(text, from, 2, 4, false);
    let iters = part.iters;
    if !part.fits {
        return refuse(part.next);
    }
    after_replica(text, part.next, with_replica(layout, iters))
}

// A replica of one iter, after its bracket.
fn single(text: &[u8], from: usize, layout: Layout) -> Reading
    ensures { SingleAnswered text.now from layout result }
{
    let part = reading_lists::read_single(text, from);
    if !part.fits {
        return refuse(part.next);
    }
    let none = Iter {
        extent: 0,
        stride: 0,
        axis: 0,
    };
    let mut at = [none; 8];
    let iter = part.iter;
    at[0] = iter;
    let iters = Iters { at, count: 1 };
    after_replica(text, part.next, with_replica(layout, iters))
}

// After the shard and a plus.
fn after_plus(text: &[u8], from: usize, layout: Layout) -> Reading
    ensures { PlusAnswered text.now from layout result }
{
    if !reading_tokens::stands(text, from, b'R') {
        return with_offsets(text, from, layout);
    }
    let open = reading_tokens::word(text, from + 1, BRACKET, 0);
    let next = open.next;
    if !open.fits {
        return refuse(next);
    }
    if reading_tokens::stands(text, next, b'(') {
        return several(text, next + 1, layout);
    }
    single(text, next, layout)
}

// Reads a text: the layout that it says, or the length of its longest beginning.
pub fn read(text: &[u8]) -> Reading
    ensures { ReadSays text.now result }
{
    let open = reading_tokens::word(text, 0, OPEN, 0);
    if !open.fits {
        return refuse(open.next);
    }
    let part = reading_lists::read_list(text, open.next, 1, 8, true);
    let from = part.next;
    let iters = part.iters;
    let marks = part.marks;
    if !part.fits {
        return refuse(from);
    }
    let layout = shard_alone(iters, marks);
    if text.len() <= from {
        return done(layout);
    }
    if text[from] != b'+' {
        return refuse(from);
    }
    after_plus(text, from + 1, layout)
}
