// The card that a block of the layout book holds, field by field.
#![tactic(auto)]

ghost use Rattle.std.specs.Prelude.{◌≡◌, false, cond, map, ℕ, ◌+◌, ◌*◌, ◌^◌, ◌<◌, ◌≤◌, ltb, eqb, length};
ghost use Rattle.card.specs.Lists.{slots};
ghost use Rattle.card.specs.Card.{none, no_card};
ghost use Rattle.book.specs.Bytes.{field, signed32};
ghost use Rattle.book.specs.Book.{iter_in, slot_in, iters_in, slot_mark_in, offset_in, length_in, card_in};

use card::{Card, Iter, Iters};
use swizzle::Swizzle;

// A byte as a number. Public for the crate above.
pub fn wide(b: u8) -> u64
    ensures { (result ≡ b) × (result < 256) }
{
    b as u64
}

// The number that one byte holds. Public, with a requires, for the crate above.
pub fn one(block: &[u8], at: usize) -> u64
    requires { at + 1 ≤ length block.now }
    ensures { (result ≡ field 1 at block.now) × (result < 256) }
{
    wide(block[at])
}

// The number that the four bytes from this one on hold. Public, with a requires, for the crate above.
pub fn four(block: &[u8], at: usize) -> u64
    requires { at + 4 ≤ length block.now }
    ensures { (result ≡ field 4 at block.now) × (result < 2 ^ 32) }
{
    wide(block[at])
        + 256 * (wide(block[at + 1]) + 256 * (wide(block[at + 2]) + 256 * wide(block[at + 3])))
}

// The number that two's complement stands for.
fn signed(n: u64) -> i64
    requires { n < 2 ^ 32 }
    ensures { result ≡ signed32 n }
{
    if n < 2147483648 {
        return n as i64;
    }
    -1 - (4294967295 - n) as i64
}

// The number that the four bytes from this one on stand for.
fn signed_in(block: &[u8], at: usize) -> i64
    requires { at + 4 ≤ length block.now }
    ensures { (result ≡ signed32 (field 4 at block.now)) × (field 4 at block.now < 2 ^ 32) }
{
    signed(four(block, at))
}

// The iter from this byte on.
fn iter_in(block: &[u8], at: usize) -> Iter
    requires { at + 12 ≤ length block.now }
    ensures { result ≡ iter_in block.now at }
{
    let extent = four(block, at);
    let stride = signed_in(block, at + 4);
    let axis = one(block, at + 8);
    Iter {
        extent,
        stride,
        axis,
    }
}

// A slot that nothing fills.
fn no_iter() -> Iter
    ensures { result ≡ none }
{
    Iter {
        extent: 0,
        stride: 0,
        axis: 0,
    }
}

// Slot k of the iters from this byte on: zeros past the count.
fn slot_in(block: &[u8], from: usize, count: u64, k: usize) -> Iter
    requires { (from + 12 * count ≤ length block.now) × (count ≤ 8) × (from ≤ 104) }
    ensures { result ≡ slot_in block.now from count k }
{
    if (k as u64) < count {
        return iter_in(block, from + 12 * k);
    }
    no_iter()
}

// The iters from this byte on.
fn iters_in(block: &[u8], from: usize, count: u64) -> Iters
    requires { (from + 12 * count ≤ length block.now) × (count ≤ 8) × (from ≤ 104) }
    ensures { result ≡ iters_in block.now from count }
{
    let at = [
        slot_in(block, from, count, 0),
        slot_in(block, from, count, 1),
        slot_in(block, from, count, 2),
        slot_in(block, from, count, 3),
        slot_in(block, from, count, 4),
        slot_in(block, from, count, 5),
        slot_in(block, from, count, 6),
        slot_in(block, from, count, 7),
    ];
    Iters { at, count }
}

// The mark of slot k.
fn mark_in(block: &[u8], count: u64, k: usize) -> bool
    requires { (8 + 12 * count ≤ length block.now) × (count ≤ 8) }
    ensures { result ≡ slot_mark_in block.now count k }
{
    if (k as u64) < count {
        return one(block, 8 + 12 * k + 9) == 1;
    }
    false
}

fn marks_in(block: &[u8], count: u64) -> [bool; 8]
    requires { (8 + 12 * count ≤ length block.now) × (count ≤ 8) }
    ensures { result ≡ map (slot_mark_in block.now count) slots }
{
    [
        mark_in(block, count, 0),
        mark_in(block, count, 1),
        mark_in(block, count, 2),
        mark_in(block, count, 3),
        mark_in(block, count, 4),
        mark_in(block, count, 5),
        mark_in(block, count, 6),
        mark_in(block, count, 7),
    ]
}

// The offsets.
fn offset_in(block: &[u8]) -> [i64; 8]
    requires { 216 ≤ length block.now }
    ensures { result ≡ map (offset_in block.now) slots }
{
    [
        signed_in(block, 152),
        signed_in(block, 156),
        signed_in(block, 160),
        signed_in(block, 164),
        signed_in(block, 168),
        signed_in(block, 172),
        signed_in(block, 176),
        signed_in(block, 180),
    ]
}

// The lengths.
fn lengths_in(block: &[u8]) -> [u64; 8]
    requires { 216 ≤ length block.now }
    ensures { result ≡ map (length_in block.now) slots }
{
    [
        four(block, 184),
        four(block, 188),
        four(block, 192),
        four(block, 196),
        four(block, 200),
        four(block, 204),
        four(block, 208),
        four(block, 212),
    ]
}

// The card that a block holds. Public, with a requires, for the crate above.
pub fn card_in(block: &[u8]) -> Card
    requires { (216 ≤ length block.now) × (field 1 0 block.now ≤ 8) × (field 1 1 block.now ≤ 4) }
    ensures { result ≡ card_in block.now }
{
    let shard_count = one(block, 0);
    let replica_count = one(block, 1);
    let shard = iters_in(block, 8, shard_count);
    let marks = marks_in(block, shard_count);
    let replica = iters_in(block, 104, replica_count);
    let offset = offset_in(block);
    let lengths = lengths_in(block);
    let m = one(block, 2);
    let b = one(block, 3);
    let s = one(block, 4);
    let swizzle = Swizzle { m, b, s };
    Card {
        shard,
        marks,
        replica,
        offset,
        lengths,
        swizzle,
    }
}

// A card of zeros. Public for the crate above.
pub fn no_card() -> Card
    ensures { result ≡ no_card }
{
    let iter = no_iter();
    let at = [iter; 8];
    let shard = Iters { at, count: 0 };
    let replica = Iters { at, count: 0 };
    let swizzle = Swizzle { m: 0, b: 0, s: 0 };
    Card {
        shard,
        marks: [false; 8],
        replica,
        offset: [0; 8],
        lengths: [0; 8],
        swizzle,
    }
}
