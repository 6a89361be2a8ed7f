// A card packed once into two arrays of numbers.
#![tactic(auto)]

ghost use Rattle.std.specs.Prelude.{◌≡◌, map, min};
ghost use Rattle.card.specs.Card.{extent_of, size};
ghost use Rattle.card.specs.Packed.{beyond, last_column, Packs};

use card::{Card, Iters};

// The columns of the two lists of iters: their extents and axes among the unsigned numbers, their strides
// among the signed ones.
const SHARD_EXTENTS: usize = 0;

const SHARD_AXES: usize = 8;

const REPLICA_EXTENTS: usize = 16;

const REPLICA_AXES: usize = 24;

const SHARD_STRIDES: usize = 0;

const REPLICA_STRIDES: usize = 8;

// A card's numbers in two arrays, that are passed by reference from here on.
#[derive(Clone, Copy)]
pub struct Packed {
    pub numbers: [u64; 56],
    pub strides: [i64; 24],
}

// The extents of all eight iters.
fn extents(iters: Iters) -> [u64; 8]
    ensures { result ≡ map extent_of iters.at }
{
    let at = iters.at;
    [
        at[0].extent,
        at[1].extent,
        at[2].extent,
        at[3].extent,
        at[4].extent,
        at[5].extent,
        at[6].extent,
        at[7].extent,
    ]
}

// The product of the extents of a list of iters, told apart below BEYOND.
fn size(iters: Iters) -> u64
    ensures { result ≡ min (size iters) beyond }
{
    let extents = extents(iters);
    card_products::product(extents, iters.count.min(8))
}

// The counts, M, B, S and the sizes of a card.
fn last_column(card: Card) -> [u64; 8]
    ensures { result ≡ last_column card }
{
    let shard = card.shard;
    let replica = card.replica;
    let lengths = card.lengths;
    [
        shard.count,
        replica.count,
        card.swizzle.m,
        card.swizzle.b,
        card.swizzle.s,
        size(shard),
        size(replica),
        card_products::product(lengths, 8),
    ]
}

// Packs a card, once: everything after it reads the two arrays.
pub fn pack(card: Card) -> Packed
    ensures { Packs card result.numbers result.strides }
{
    let shard = card.shard;
    let marks = card.marks;
    let replica = card.replica;
    let offset = card.offset;
    let lengths = card.lengths;
    let last = last_column(card);
    let mut numbers = [0u64; 56];
    let mut strides = [0i64; 24];
    for k in 0..8 {
        let of_shard = shard.at[k];
        let of_replica = replica.at[k];
        numbers[SHARD_EXTENTS + k] = of_shard.extent;
        numbers[SHARD_AXES + k] = of_shard.axis;
        numbers[REPLICA_EXTENTS + k] = of_replica.extent;
        numbers[REPLICA_AXES + k] = of_replica.axis;
        numbers[card::LENGTHS + k] = lengths[k];
        numbers[card::COUNTS + k] = last[k];
        numbers[card::MARKS + k] = u64::from(marks[k]);
        let shard_stride = of_shard.stride;
        strides[SHARD_STRIDES + k] = shard_stride;
        let replica_stride = of_replica.stride;
        strides[REPLICA_STRIDES + k] = replica_stride;
        strides[card::OFFSET + k] = offset[k];
    }
    Packed { numbers, strides }
}
