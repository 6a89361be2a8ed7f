// Which elements lead, on a packed card: of those that differ only in marked components, the smallest.
#![tactic(auto)]

ghost use Rattle.std.specs.Prelude.{◌≡◌, false, List, eqb, ℤ};
ghost use Rattle.card.specs.Packed.{card_of, ListOf};
ghost use Rattle.rules.specs.Reuse.{leader, Unmarked};
ghost use Rattle.reuse.specs.Clauses.{Element};

use answers::Flat;

// Whether an iter of the shard is marked. Public, with a requires, for the crates above.
pub fn has_marks(numbers: &[u64; 56]) -> bool
    requires { ListOf numbers.now 0 }
    ensures { (strides : List ℤ) → result ≡ false → Unmarked (card_of numbers.now strides) }
{
    let count = numbers[card::COUNTS + card::SHARD] as usize;
    for k in 0..count {
        if numbers[card::MARKS + k] != 0 {
            return true;
        }
    }
    false
}

// Whether the marked components of an element are 0.
fn stands_still(numbers: &[u64; 56], flat: Flat) -> bool
    requires { Element numbers.now flat.0 }
    ensures { (strides : List ℤ) → result ≡ eqb (leader (card_of numbers.now strides) flat.0) flat.0 }
{
    let mut rest = flat.0;
    let count = numbers[card::COUNTS + card::SHARD] as usize;
    for k in (0..count).rev() {
        let extent = numbers[k];
        if (numbers[card::MARKS + k] != 0) & (rest % extent != 0) {
            return false;
        }
        rest = rest / extent;
    }
    true
}

// Whether an element leads. Without marks each does, so whoever asks for many looks for marks once.
// Public, with a requires, for the crates above.
pub fn leads(numbers: &[u64; 56], marked: bool, flat: Flat) -> bool
    requires { Element numbers.now flat.0 × ((strides : List ℤ) → marked ≡ false → Unmarked (card_of numbers.now strides)) }
    ensures { (strides : List ℤ) → result ≡ eqb (leader (card_of numbers.now strides) flat.0) flat.0 }
{
    if marked {
        stands_still(numbers, flat)
    } else {
        true
    }
}
