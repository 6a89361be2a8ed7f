// Whether every unused byte of a block is zero and every mark 0 or 1, byte by byte and in place.
#![tactic(auto)]

ghost use Rattle.std.specs.Prelude.{◌≡◌, true, ◌↔◌, ◌+◌, ◌*◌, ◌≤◌, length};
ghost use Rattle.book.specs.Bytes.{field};
ghost use Rattle.book.specs.Book.{check_right, all_used};
ghost use Rattle.book_unused.specs.Unused.{Zeros, SlotsEnd};

// Whether the bytes from one to before another are zero.
fn are_zeros(block: &[u8], from: usize, to: usize) -> bool
    requires { (from ≤ to) × (to ≤ length block.now) }
    ensures { (result ≡ true) ↔ Zeros block.now from to }
{
    let mut zero = true;
    for i in from..to {
        zero = zero & (block[i] == 0);
    }
    zero
}

// Whether so many slots end as they may: after the axis a byte of at most so much, the mark, and two zeros.
fn are_ends(block: &[u8], from: usize, most: u8, count: usize) -> bool
    requires { (from + 12 * count ≤ length block.now) × (count ≤ 8) × (from ≤ 104) }
    ensures { (result ≡ true) ↔ SlotsEnd block.now from most count }
{
    let mut fine = true;
    for k in 0..count {
        let at = from + 12 * k + 9;
        let ends = (block[at] <= most) & (block[at + 1] == 0) & (block[at + 2] == 0);
        fine = fine & ends;
    }
    fine
}

// Whether a block with a right check and right counts is that of the card and the note that it holds. Public, with a requires,
// for the crate above.
pub fn is_all_used(block: &[u8]) -> bool
    requires { (512 ≤ length block.now) × (check_right block.now ≡ true) × (field 1 0 block.now ≤ 8) × (field 1 1 block.now ≤ 4) }
    ensures { result ≡ all_used block.now }
{
    let noted = book_blocks::noted_in(block) as usize;
    if book::MOST_NOTE < noted {
        return false;
    }
    let shard_count = book_card::one(block, 0) as usize;
    let replica_count = book_card::one(block, 1) as usize;
    (block[5] == 0)
        & are_ends(block, 8, 1, shard_count)
        & are_ends(block, 104, 0, replica_count)
        & are_zeros(block, 8 + 12 * shard_count, 104)
        & are_zeros(block, 104 + 12 * replica_count, 152)
        & are_zeros(block, book::NOTE + noted, book::CHECK)
}
