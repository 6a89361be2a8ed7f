// Whole products, told apart below a number above every limit.
#![tactic(auto)]

ghost use Rattle.std.specs.Prelude.{◌≡◌, ◌*◌, ◌≤◌, min, take};
ghost use Rattle.card.specs.Lists.{product};
ghost use Rattle.card.specs.Packed.{beyond};

// A whole product, told apart below BEYOND: no factor is too large, and nothing wraps. Two factors of
// 32 bits fit a word, so that nothing has to be divided.
fn times(a: u64, b: u64) -> u64
    requires { a ≤ beyond }
    ensures { result ≡ min (a * b) beyond }
{
    if card::BEYOND <= b {
        if a == 0 {
            return 0;
        }
        return card::BEYOND;
    }
    let whole = a * b;
    if whole < card::BEYOND {
        whole
    } else {
        card::BEYOND
    }
}

// The whole product of the first `count` numbers, told apart below BEYOND. Public, with a
// requires, for the crates above, which judge other products by it.
pub fn product(numbers: [u64; 8], count: u64) -> u64
    requires { count ≤ 8 }
    ensures { result ≡ min (product (take count numbers)) beyond }
{
    let mut part: u64 = 1;
    for k in 0..count {
        part = times(part, numbers[k as usize]);
    }
    part
}
