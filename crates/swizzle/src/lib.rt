// Swizzles: the swizzle of an address, and M, B, S from element bits and mode.
#![tactic(auto)]

ghost use Rattle.std.specs.Prelude.{◌≡◌, true, ◌-◌, ◌/◌};
ghost use Rattle.swizzle.specs.Swizzle.{permitted, swizzled, swizzle_answer};
ghost use Rattle.swizzle.specs.Mode.{known_bits, known, bit_length, mode_answer};

use answers::{Details, Numbers, Refusal};

// The largest M, B and S that are permitted.
const MOST_M: u64 = 8;

const MOST_B: u64 = 4;

const MOST_S: u64 = 8;

// The largest mode, the S of every mode, and the bits that a mode leaves together: 16 bytes.
const MOST_MODE: u64 = 3;

const MODE_S: u64 = 3;

const TOGETHER: u64 = 128;

// The three numbers of a swizzle.
#[derive(Clone, Copy)]
pub struct Swizzle {
    pub m: u64,
    pub b: u64,
    pub s: u64,
}

impl Details for Swizzle {
    ghost use Rattle.std.specs.Prelude.{refl};
    ghost use Rattle.swizzle.specs.Mode.{parameter_numbers};

    ghost as_numbers = { parameter_numbers };

    ghost reads_back = { (λ n. record { m = n.a; b = n.b; s = n.c }, λ x. (refl, refl)) };

    fn details(self) -> Numbers {
        answers::answer(0, self.m, self.b, self.s)
    }
}

// Whether a swizzle is permitted. Public for the crates above, which judge a card by it.
pub fn is_permitted(m: u64, b: u64, s: u64) -> bool
    ensures { result ≡ permitted m b s }
{
    (m <= MOST_M) & (b <= MOST_B) & (s <= MOST_S) & (b <= s)
}

// The swizzle of an address by a permitted swizzle. Public, with a requires, only for the crates
// above: they judge a card's swizzle once and then swizzle many addresses.
pub fn swizzle_permitted(m: u64, b: u64, s: u64, address: u64) -> u64
    requires { permitted m b s ≡ true }
    ensures { result ≡ swizzled m b s address }
{
    let picked = ((address >> m) >> s) % (1 << b);
    address ^ (picked << m)
}

// The swizzle of any address by any M, B, S.
pub fn swizzle_address(m: u64, b: u64, s: u64, address: u64) -> Result<u64, Refusal>
    ensures { result ≡ swizzle_answer m b s address }
{
    if !is_permitted(m, b, s) {
        return Err(Refusal::Swizzle);
    }
    Ok(swizzle_permitted(m, b, s, address))
}

// Whether these are bits of an element. Public for the crates above, which have elements of the same widths.
pub fn is_known_bits(bits: u64) -> bool
    ensures { result ≡ known_bits bits }
{
    (bits == 4) | (bits == 8) | (bits == 16) | (bits == 32) | (bits == 64) | (bits == 128)
}

// Whether these are element bits and a mode that have a swizzle.
fn is_known(bits: u64, mode: u64) -> bool
    ensures { result ≡ known bits mode }
{
    is_known_bits(bits) & (mode <= MOST_MODE)
}

// The M of known bits: the bit length of 128 / bits, less 1, from counting leading zeros.
fn kept_bits(bits: u64) -> u64
    requires { known_bits bits ≡ true }
    ensures { result ≡ bit_length (128 / bits) - 1 }
{
    63 - u64::leading_zeros(TOGETHER / bits) as u64
}

// M, B, S from any element bits and any mode.
pub fn swizzle_of_mode(bits: u64, mode: u64) -> Result<Swizzle, Refusal>
    ensures { result ≡ mode_answer bits mode }
{
    if is_known(bits, mode) {
        Ok(Swizzle {
            m: kept_bits(bits),
            b: mode,
            s: MODE_S,
        })
    } else {
        Err(Refusal::Swizzle)
    }
}
