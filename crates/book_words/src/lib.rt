// The first 216 bytes of a card's block as 54 words of four bytes.
// Every field of a card fills or shares an aligned word, so that one function goes by the word's place and one loop stores the bytes.
#![tactic(auto)]

ghost use Rattle.std.specs.Prelude.{◌≡◌, ℕ, ◌^◌, ◌<◌, length, get_or};
ghost use Rattle.book.specs.Bytes.{twos};
ghost use Rattle.book_words.specs.Words.{iter_word, slot_word, first_word, word_of};

use card::{Card, Iter, Iters};

// Two's complement in four bytes.
fn twos(z: i64) -> u64
    ensures { (result ≡ twos z) × (result < 2 ^ 32) }
{
    if z < 0 {
        return 4294967295 - ((-1 - z) as u64) % 4294967296;
    }
    (z as u64) % 4294967296
}

// Word j of an iter.
fn iter_word(iter: Iter, mark: bool, j: usize) -> u64
    ensures { result ≡ iter_word iter mark j }
{
    if j == 0 {
        return iter.extent;
    }
    if j == 1 {
        return twos(iter.stride);
    }
    iter.axis % 256 + 256 * u64::from(mark)
}

// Word i of the slots of a list of iters.
fn slot_word(iters: Iters, marks: [bool; 8], i: usize) -> u64
    requires { i < 24 }
    ensures { result ≡ slot_word iters.count marks iters.at i }
{
    let k = i / 3;
    if (k as u64) < iters.count {
        let at = iters.at;
        let iter = at[k];
        return iter_word(iter, marks[k], i % 3);
    }
    0
}

// Words 0 and 1.
fn first_word(card: Card, noted: u64, i: usize) -> u64
    requires { noted < 2 ^ 16 }
    ensures { result ≡ first_word card noted i }
{
    let shard = card.shard;
    let replica = card.replica;
    if i == 0 {
        return shard.count % 256
            + 256
                * (replica.count % 256
                    + 256 * (card.swizzle.m % 256 + 256 * (card.swizzle.b % 256)));
    }
    card.swizzle.s % 256 + 256 * (256 * noted)
}

// Word i of a card.
fn word(card: Card, noted: u64, i: usize) -> u64
    requires { (i < 54) × (noted < 2 ^ 16) }
    ensures { result ≡ word_of card noted i }
{
    if i < 2 {
        return first_word(card, noted, i);
    }
    if i < 26 {
        let shard = card.shard;
        let marks = card.marks;
        return slot_word(shard, marks, i - 2);
    }
    if i < 38 {
        let replica = card.replica;
        return slot_word(replica, [false; 8], i - 26);
    }
    if i < 46 {
        let offset = card.offset;
        return twos(offset[i - 38]);
    }
    let lengths = card.lengths;
    lengths[i - 46]
}

// All words of a card. Public, with a requires, for the crate above.
pub fn words_of(card: Card, noted: u64) -> [u64; 54]
    requires { noted < 2 ^ 16 }
    ensures { (length result ≡ 54) × ((i : ℕ) → i < 54 → get_or result i 0 ≡ word_of card noted i) }
{
    let mut words = [0u64; 54];
    for (i, place) in words.iter_mut().enumerate() {
        *place = word(card, noted, i);
    }
    words
}
