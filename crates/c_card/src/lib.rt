// A card as plain numbers, for C and for desk: the card that 57 numbers and its marks are, and an answer as four numbers.
#![tactic(auto)]

ghost use Rattle.std.specs.Prelude.{◌≡◌, ◌+◌, ◌≤◌};
ghost use Rattle.c_card.specs.Card.{signed64, iter_from, shard_from, replica_from, offset_from, lengths_from, marks_from, card_from, four};

use answers::Numbers;
use card::{Card, Iter, Iters};
use swizzle::Swizzle;

// Where the numbers of a card stand, in the order of docs/PROTOCOL.md.
const REPLICA: usize = 25;

const OFFSETS: usize = 38;

const LENGTHS: usize = 46;

const SWIZZLE: usize = 54;

// From here on 64 bits are a number below zero.
const HALF: u64 = 9223372036854775808;

// The signed number that 64 bits are in two's complement. Public for the crate above.
pub fn signed(n: u64) -> i64
    ensures { result ≡ signed64 n }
{
    if n < HALF {
        n as i64
    } else {
        -1 - (u64::MAX - n) as i64
    }
}

// The iter whose three numbers begin at a place; its stride is in two's complement.
fn iter(numbers: &[u64; 57], from: usize) -> Iter
    requires { from + 3 ≤ 57 }
    ensures { result ≡ iter_from numbers.now from }
{
    Iter {
        extent: numbers[from],
        stride: signed(numbers[from + 1]),
        axis: numbers[from + 2],
    }
}

// The shard: its count and eight iters.
fn shard(numbers: &[u64; 57]) -> Iters
    ensures { result ≡ shard_from numbers.now }
{
    let at = [
        iter(numbers, 1),
        iter(numbers, 4),
        iter(numbers, 7),
        iter(numbers, 10),
        iter(numbers, 13),
        iter(numbers, 16),
        iter(numbers, 19),
        iter(numbers, 22),
    ];
    Iters {
        at,
        count: numbers[0],
    }
}

// The replica: its count and four iters. No count above four is admitted, so what stands in the other
// four is never looked at.
fn replica(numbers: &[u64; 57]) -> Iters
    ensures { result ≡ replica_from numbers.now }
{
    let none = Iter {
        extent: 0,
        stride: 0,
        axis: 0,
    };
    let at = [
        iter(numbers, REPLICA + 1),
        iter(numbers, REPLICA + 4),
        iter(numbers, REPLICA + 7),
        iter(numbers, REPLICA + 10),
        none,
        none,
        none,
        none,
    ];
    Iters {
        at,
        count: numbers[REPLICA],
    }
}

// The offset, in two's complement.
fn offset(numbers: &[u64; 57]) -> [i64; 8]
    ensures { result ≡ offset_from numbers.now }
{
    [
        signed(numbers[OFFSETS]),
        signed(numbers[OFFSETS + 1]),
        signed(numbers[OFFSETS + 2]),
        signed(numbers[OFFSETS + 3]),
        signed(numbers[OFFSETS + 4]),
        signed(numbers[OFFSETS + 5]),
        signed(numbers[OFFSETS + 6]),
        signed(numbers[OFFSETS + 7]),
    ]
}

// The lengths.
fn lengths(numbers: &[u64; 57]) -> [u64; 8]
    ensures { result ≡ lengths_from numbers.now }
{
    [
        numbers[LENGTHS],
        numbers[LENGTHS + 1],
        numbers[LENGTHS + 2],
        numbers[LENGTHS + 3],
        numbers[LENGTHS + 4],
        numbers[LENGTHS + 5],
        numbers[LENGTHS + 6],
        numbers[LENGTHS + 7],
    ]
}

// The marks: bit k for shard iter k.
pub fn marks(bits: u64) -> [bool; 8]
    ensures { result ≡ marks_from bits }
{
    [
        (bits >> 0) % 2 == 1,
        (bits >> 1) % 2 == 1,
        (bits >> 2) % 2 == 1,
        (bits >> 3) % 2 == 1,
        (bits >> 4) % 2 == 1,
        (bits >> 5) % 2 == 1,
        (bits >> 6) % 2 == 1,
        (bits >> 7) % 2 == 1,
    ]
}

// The card that 57 numbers and the marks are.
pub fn card(numbers: &[u64; 57], bits: u64) -> Card
    ensures { result ≡ card_from numbers.now bits }
{
    Card {
        shard: shard(numbers),
        marks: marks(bits),
        replica: replica(numbers),
        offset: offset(numbers),
        lengths: lengths(numbers),
        swizzle: Swizzle {
            m: numbers[SWIZZLE],
            b: numbers[SWIZZLE + 1],
            s: numbers[SWIZZLE + 2],
        },
    }
}

// An answer's number and details.
pub fn four(numbers: Numbers) -> [u64; 4]
    ensures { result ≡ four numbers }
{
    [numbers.number, numbers.a, numbers.b, numbers.c]
}
