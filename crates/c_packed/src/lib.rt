// The card that 57 numbers and its marks are, packed straight from them, for C.
#![tactic(auto)]

ghost use Rattle.std.specs.Prelude.{◌≡◌, cond, map, ℕ, ◌+◌, ◌*◌, ◌<◌, min, ltb, pos, length, get_or, replicate};
ghost use Rattle.descriptor.specs.Descriptor.{yes};
ghost use Rattle.card.specs.Lists.{product, slots};
ghost use Rattle.card.specs.Card.{mark_number, size};
ghost use Rattle.card.specs.Packed.{beyond, last_column, Packs};
ghost use Rattle.c_card.specs.Card.{signed64, shard_from, replica_from, lengths_from, card_from};
ghost use Rattle.c_packed.specs.Clauses.{Put};

// Where extent, stride and axis of the first iter of shard and replica stand among the 57, the offset and the lengths.
const SHARD: usize = 1;

const REPLICA: usize = 26;

const OFFSETS: usize = 38;

const LENGTHS: usize = 46;

// A number of each of the shard's iters, from that of the first on.
fn of_shard(card: &[u64; 57], at: usize) -> [u64; 8]
    requires { at + 21 < 57 }
    ensures { result ≡ map (λ k. get_or card.now (at + 3 * k) 0) slots }
{
    [
        card[at],
        card[at + 3],
        card[at + 6],
        card[at + 9],
        card[at + 12],
        card[at + 15],
        card[at + 18],
        card[at + 21],
    ]
}

// The same of the replica, of which there are four among the 57: the other four slots are empty.
fn of_replica(card: &[u64; 57], at: usize) -> [u64; 8]
    requires { at + 9 < 57 }
    ensures { result ≡ map (λ k. cond (ltb k 4) (get_or card.now (at + 3 * k) 0) 0) slots }
{
    let empty: u64 = 0;
    [
        card[at],
        card[at + 3],
        card[at + 6],
        card[at + 9],
        empty,
        empty,
        empty,
        empty,
    ]
}

// A number of each axis, from that of the first on.
fn of_axes(card: &[u64; 57], at: usize) -> [u64; 8]
    requires { at + 7 < 57 }
    ensures { result ≡ map (λ k. get_or card.now (at + k) 0) slots }
{
    [
        card[at],
        card[at + 1],
        card[at + 2],
        card[at + 3],
        card[at + 4],
        card[at + 5],
        card[at + 6],
        card[at + 7],
    ]
}

// The elements, told apart below BEYOND.
fn elements(card: &[u64; 57]) -> u64
    ensures { result ≡ min (size (shard_from card.now)) beyond }
{
    card_products::product(of_shard(card, SHARD), card[0].min(8))
}

// The copies.
fn copies(card: &[u64; 57]) -> u64
    ensures { result ≡ min (size (replica_from card.now)) beyond }
{
    card_products::product(of_replica(card, REPLICA), card[25].min(8))
}

// The cells.
fn cells(card: &[u64; 57]) -> u64
    ensures { result ≡ min (product (lengths_from card.now)) beyond }
{
    card_products::product(of_axes(card, LENGTHS), 8)
}

// The counts, M, B, S and the sizes.
fn last_column(card: &[u64; 57]) -> [u64; 8]
    ensures { result ≡ last_column (card_from card.now 0) }
{
    [
        card[0],
        card[25],
        card[54],
        card[55],
        card[56],
        elements(card),
        copies(card),
        cells(card),
    ]
}

// The mark of shard iter k as a number.
fn mark(bits: u64, k: u64) -> u64
    requires { k < 64 }
    ensures { result ≡ mark_number (yes k bits) }
{
    (bits >> k) % 2
}

// Puts the marks, the last column. A card without marks has none to put where it is cleared.
fn put_marks(numbers: &mut [u64; 56], bits: u64)
    requires { (length numbers.old ≡ 56) × ((k : ℕ) → k < 8 → get_or numbers.old (48 + k) 0 ≡ 0) }
    ensures { Put 0 6 8 (λ k. mark_number (yes k bits)) numbers.old numbers.new }
{
    if bits == 0 {
        return;
    }
    for k in 0..8 {
        numbers[card::MARKS + k] = mark(bits, k as u64);
    }
}

// Puts a column of the unsigned numbers. All eight are read before one is written, so that those that stand in
// a row are written by two, and whoever reads two at once finds them together.
fn put(numbers: &mut [u64; 56], column: usize, entries: [u64; 8])
    requires { (length numbers.old ≡ 56) × (column < 7) }
    ensures { Put 0 column 8 (λ k. get_or entries k 0) numbers.old numbers.new }
{
    numbers[8 * column..8 * column + 8].copy_from_slice(&entries);
}

// Puts a column of the signed ones.
fn put_signed(strides: &mut [i64; 24], column: usize, entries: [u64; 8])
    requires { (length strides.old ≡ 24) × (column < 3) }
    ensures { Put (pos 0) column 8 (λ k. signed64 (get_or entries k 0)) strides.old strides.new }
{
    for k in 0..8 {
        strides[8 * column + k] = c_card::signed(entries[k]);
    }
}

// Packs the card, column by column, into cleared arrays. Public, with a requires, for the crate above, whose
// arrays these are.
pub fn pack(card: &[u64; 57], bits: u64, numbers: &mut [u64; 56], strides: &mut [i64; 24])
    requires { (numbers.old ≡ replicate 56 0) × (length strides.old ≡ 24) }
    ensures { Packs (card_from card.now bits) numbers.new strides.new }
{
    put_signed(strides, 0, of_shard(card, SHARD + 1));
    put_signed(strides, 1, of_replica(card, REPLICA + 1));
    put_signed(strides, 2, of_axes(card, OFFSETS));
    put(numbers, 0, of_shard(card, SHARD));
    put(numbers, 1, of_shard(card, SHARD + 2));
    put(numbers, 2, of_replica(card, REPLICA));
    put(numbers, 3, of_replica(card, REPLICA + 2));
    put(numbers, 4, of_axes(card, LENGTHS));
    put(numbers, 5, last_column(card));
    put_marks(numbers, bits);
}
