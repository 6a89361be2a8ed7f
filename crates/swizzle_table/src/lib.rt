// Where each byte of memory goes in 128B mode, by a table: one for elements of every width.
#![tactic(auto)]

mod table;

ghost use Rattle.std.specs.Prelude.{◌≡◌};
ghost use Rattle.swizzle.specs.Swizzle.{swizzled};

// The bytes of the pattern, which repeats from block to block.
const PATTERN: u64 = 1024;

// Where a byte goes, for any byte: its block of 1,024 stays, and within it the table says the place.
// 4, 3, 3 are the M, B, S of 8-bit elements, whose addresses are bytes.
pub fn place_of_byte(byte: u64) -> u64
    ensures { result ≡ swizzled 4 3 3 byte }
{
    byte / PATTERN * PATTERN + table::entry(byte % PATTERN) as u64
}
