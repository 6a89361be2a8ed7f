// A layout that was read as plain numbers, for C and for desk: the first 46 of the 57 of a card, and its marks as one.
#![tactic(auto)]

ghost use Rattle.std.specs.Prelude.{◌≡◌, cond, ◌∷◌, length, take, ◌+◌, ◌*◌, ◌≤◌};
ghost use Rattle.std.proofs.lemmas.List.Edits.{sets};
ghost use Rattle.c_card.specs.Card.{eight};
ghost use Rattle.c_layout.specs.Layout.{bits_of, iter_numbers, offsets_of, mark_bits, card_with};

use card::Iters;
use notation::Layout;

// Where the replica and the offset of a card stand.
const REPLICA: usize = 25;

const OFFSETS: usize = 38;

// The 64 bits that a signed number is in two's complement.
fn bits(z: i64) -> u64
    ensures { result ≡ bits_of z }
{
    if z < 0 {
        return u64::MAX - (-1 - z) as u64;
    }
    z as u64
}

// A list of iters written to a card from a place on: its count, and the three numbers of each of its first slots.
fn put_iters(iters: Iters, slots: usize, card: &mut [u64], from: usize)
    requires card_len { length card.old ≡ 57 }
    requires slots_bound { slots ≤ 8 }
    requires slots_bound_2 { from + 1 + 3 * slots ≤ 57 }
    ensures { card.new ≡ sets card.old from (iters.count ∷ iter_numbers iters (take slots eight)) }
{
    let at = iters.at;
    let count = iters.count;
    card[from] = count;
    for k in 0..slots {
        let iter = at[k];
        let extent = iter.extent;
        let stride = bits(iter.stride);
        let axis = iter.axis;
        let place = from + 1 + 3 * k;
        card[place] = extent;
        card[place + 1] = stride;
        card[place + 2] = axis;
    }
}

// The eight offsets written to a card.
fn put_offset(offset: [i64; 8], card: &mut [u64])
    requires { length card.old ≡ 57 }
    ensures { card.new ≡ sets card.old 38 (offsets_of offset) }
{
    for k in 0..8 {
        card[OFFSETS + k] = bits(offset[k]);
    }
}

// A mark in its bit.
fn mark(b: bool, weight: u64) -> u64
    ensures { (result ≡ cond b weight 0) × (result ≤ weight) }
{
    if b { weight } else { 0 }
}

// The marks as one number: bit k for shard iter k.
pub fn mark_bits(marks: [bool; 8]) -> u64
    ensures { result ≡ mark_bits marks }
{
    let low = mark(marks[0], 1) + mark(marks[1], 2) + mark(marks[2], 4) + mark(marks[3], 8);
    low + mark(marks[4], 16) + mark(marks[5], 32) + mark(marks[6], 64) + mark(marks[7], 128)
}

// A layout that was read written to a card: its lengths and its swizzle stay, and are not stored over themselves.
pub fn put_layout(layout: Layout, card: &mut [u64; 57])
    ensures { card.new ≡ card_with layout card.old }
{
    let shard = layout.shard;
    let replica = layout.replica;
    let offset = layout.offset;
    // as a slice, whose length the proof knows
    let numbers: &mut [u64] = card;
    put_iters(shard, 8, numbers, 0);
    put_iters(replica, 4, numbers, REPLICA);
    put_offset(offset, numbers);
}
