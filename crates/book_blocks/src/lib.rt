// The block of a card with a note, its check, and the length of a block's note.
#![tactic(auto)]

ghost use Rattle.std.specs.Prelude.{◌≡◌, ◌++◌, ℕ, ◌<◌, ◌≤◌, length, get_or, take};
ghost use Rattle.book.specs.Bytes.{bytes};
ghost use Rattle.book.specs.Block.{most_note, check_of, block_of};
ghost use Rattle.book.specs.Book.{noted_in, check_right};
ghost use Rattle.book_blocks.specs.Filled.{body_byte};

use card::Card;

// The check of a block: the sum of (i + 1) times byte i, for i from 0 to 507, modulo 65,521.
fn weigh(block: &[u8]) -> u64
    requires { 508 ≤ length block.now }
    ensures { result ≡ check_of (take 508 block.now) }
{
    let mut sum: u64 = 0;
    for i in 0..book::CHECK {
        sum += (i as u64 + 1) * book_card::wide(block[i]);
    }
    sum % book::MODULUS
}

// Byte j of these words, and of the note after them.
fn body_byte(words: &[u64; 54], note: &[u8], j: usize) -> u8
    requires { j < 508 }
    ensures { result ≡ body_byte words.now note.now j }
{
    if j < book::NOTE {
        return ((words[j / 4] >> (8 * (j % 4))) % 256) as u8;
    }
    let k = j - book::NOTE;
    if k < note.len() {
        return note[k];
    }
    0
}

// Bytes 0 to 507 of a block.
fn fill_body(words: &[u64; 54], note: &[u8], block: &mut [u8])
    requires { length block.old ≡ 512 }
    ensures { (length block.new ≡ 512) × ((j : ℕ) → j < 508 → get_or block.new j 0 ≡ body_byte words.now note.now j) }
{
    for j in 0..book::CHECK {
        block[j] = body_byte(words, note, j);
    }
}

// Bytes 508 to 511 of a block: a number.
fn put_check(n: u64, block: &mut [u8])
    requires { length block.old ≡ 512 }
    ensures { block.new ≡ take 508 block.old ++ bytes 4 n }
{
    block[508] = (n % 256) as u8;
    block[509] = (n / 256 % 256) as u8;
    block[510] = (n / 256 / 256 % 256) as u8;
    block[511] = (n / 256 / 256 / 256 % 256) as u8;
}

// The block of a card with a note, into memory of just its bytes. Public, with a requires, for the crate above.
pub fn fill(card: Card, note: &[u8], block: &mut [u8])
    requires { (length block.old ≡ 512) × (length note.now ≤ most_note) }
    ensures { block.new ≡ block_of card note.now }
{
    let words = book_words::words_of(card, note.len() as u64);
    fill_body(&words, note, &mut *block);
    let check = weigh(block);
    put_check(check, &mut *block);
}

// Whether bytes 508 to 511 hold the check of those before. Public, with a requires, for the crate above.
pub fn is_check_right(block: &[u8]) -> bool
    requires { 512 ≤ length block.now }
    ensures { result ≡ check_right block.now }
{
    book_card::four(block, book::CHECK) == weigh(block)
}

// The length of a block's note. Public, with a requires, for the crate above.
pub fn noted_in(block: &[u8]) -> u64
    requires { 512 ≤ length block.now }
    ensures { (result ≡ noted_in block.now) × (result < 65536) }
{
    book_card::one(block, 6) + 256 * book_card::one(block, 7)
}
