// What a list of a packed card's iters adds to each axis at an index: one walk over the iters.
#![tactic(auto)]

ghost use Rattle.std.specs.Prelude.{◌≡◌, pos, ◌+ℤ◌, ◌*ℤ◌};
ghost use Rattle.card.specs.Packed.{iters_of};
ghost use Rattle.rules.specs.Walked.{walked};
ghost use Rattle.copies_sums.specs.Walks.{Walkable, Sums, Steps};

// A sum with a component times its stride, or a weight times a number. Public, with a requires, for the
// crates above.
pub fn step(sum: i64, component: u64, stride: i64) -> i64
    requires { Steps sum component stride }
    ensures { result ≡ sum +ℤ pos component *ℤ stride }
{
    sum + component as i64 * stride
}

// Adds to the sums what a list of iters adds to each axis at an index: one walk over the iters for all
// eight axes, from the last, which runs fastest. Public, with a requires, for the crates above.
pub fn walk(numbers: &[u64; 56], strides: &[i64; 24], list: usize, index: u64, sums: &mut [i64; 8])
    requires { Walkable numbers.now strides.now list × Sums sums.old }
    ensures { sums.new ≡ walked (iters_of numbers.now strides.now list) index sums.old }
{
    let mut rest = index;
    let count = numbers[card::COUNTS + list] as usize;
    for k in (0..count).rev() {
        let extent = numbers[16 * list + k];
        let axis = numbers[16 * list + 8 + k] as usize;
        let sum = step(sums[axis], rest % extent, strides[8 * list + k]);
        sums[axis] = sum;
        rest = rest / extent;
    }
}
