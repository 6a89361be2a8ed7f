// The first element that leaves the space on m where the swizzle leaves it in doubt: m of one element after the other, in runs.
// Only m is looked at element by element, where the blocks of its swizzle numbers are not whole at its length, from the first one that
// reaches beyond the whole blocks to the first that leaves on another axis, in runs: one walk for each run, then one addition for an element
// and one for each copy, what the copies add written once.
#![tactic(auto)]

ghost use Rattle.std.specs.Prelude.{◌+◌, ◌≤◌, ◌<◌, ◌≡◌, true, pos, ◌+ℤ◌, ◌*ℤ◌, length};
ghost use Rattle.card.specs.Limits.{last_axis};
ghost use Rattle.card.specs.Card.{copies, elements};
ghost use Rattle.card.specs.Packed.{iters_of, card_of, Admits};
ghost use Rattle.rules.specs.Rules.{part};
ghost use Rattle.copies_sums.specs.Walks.{Walkable};
ghost use Rattle.copies.specs.Clauses.{Permits};
ghost use Rattle.idle.specs.Clauses.{Says};
ghost use Rattle.rules_linear.specs.Runs.{run_length};
ghost use Rattle.rules_linear.specs.Leaving.{Sought, Leaves};
ghost use Rattle.outside_swizzled.specs.Doubt.{CopiesAdd, MLies, MLeaves};
ghost use Rattle.outside_swizzled.specs.Clauses.{Looks, RunSteps, Doubted, NoneLeaving};

use answers::Flat;

// The axis m, the last.
const M: usize = card::LAST_AXIS as usize;

// What a list of iters adds to m at an index.
fn m_sum(numbers: &[u64; 56], strides: &[i64; 24], list: usize, index: u64) -> i64
    requires { Walkable numbers.now strides.now list }
    ensures { result ≡ part (iters_of numbers.now strides.now list) index last_axis }
{
    let mut sums = [0i64; 8];
    copies_sums::walk(numbers, strides, list, index, &mut sums);
    sums[M]
}

// Writes what the offset and each replica combination add to m.
fn put_adds(numbers: &[u64; 56], strides: &[i64; 24], adds: &mut [i64])
    requires admits { Admits numbers.now strides.now }
    requires adds_len { length adds.old ≡ copies (card_of numbers.now strides.now) }
    ensures { CopiesAdd (card_of numbers.now strides.now) adds.new }
{
    let offset = strides[card::OFFSET + M];
    for (r, entry) in adds.iter_mut().enumerate() {
        let sum = m_sum(numbers, strides, card::REPLICA, r as u64);
        *entry = offset + sum;
    }
}

// Whether a finished m, swizzled, lies inside its length.
fn m_lies(numbers: &[u64; 56], m: i64) -> bool
    requires { Permits numbers.now }
    ensures { Says (MLies numbers.now m) result }
{
    if m < 0 {
        return false;
    }
    let swizzled = swizzle::swizzle_permitted(
        numbers[card::M],
        numbers[card::B],
        numbers[card::S],
        m as u64,
    );
    swizzled < numbers[card::LENGTHS + M]
}

// Whether one of an element's copies leaves on m.
fn m_leaves(numbers: &[u64; 56], adds: &[i64], m: i64) -> bool
    requires { Looks numbers.now adds.now m }
    ensures { Says (MLeaves numbers.now adds.now m) result }
{
    for add in adds {
        if !m_lies(numbers, m + *add) {
            return true;
        }
    }
    false
}

// The first of so many elements, each a step further on m, of which a copy leaves, or how many they are.
fn first_of_run(numbers: &[u64; 56], adds: &[i64], base: i64, step: i64, count: u64) -> u64
    requires { RunSteps numbers.now adds.now base step count }
    ensures { Sought (λ c. MLeaves numbers.now adds.now (base +ℤ pos c *ℤ step)) count result }
{
    let mut m = base;
    for c in 0..count {
        if m_leaves(numbers, adds, m) {
            return c;
        }
        m = m + step;
    }
    count
}

// The first element from a place on that leaves on m, or the limit: run by run, by what the copies add.
fn first_m(numbers: &[u64; 56], strides: &[i64; 24], adds: &[i64], from: Flat, limit: Flat) -> Flat
    requires { Doubted numbers.now strides.now adds.now × NoneLeaving numbers.now strides.now from.0 limit.0 × (from.0 ≤ limit.0) }
    ensures { Sought (λ f. Leaves (card_of numbers.now strides.now) f last_axis) limit.0 result.0 }
{
    let run = copies_runs::run_length(numbers);
    let step = m_sum(numbers, strides, card::SHARD, 1);
    let end = limit.0;
    let mut flat = from.0;
    // A while: a turn goes on by a run, not by one.
    while flat < end {
        let count = (run - flat % run).min(end - flat);
        let base = m_sum(numbers, strides, card::SHARD, flat);
        let found = first_of_run(numbers, adds, base, step, count);
        flat = flat + found;
        if found < count {
            return Flat(flat);
        }
    }
    limit
}

// The same in a place for what the copies add.
fn first_by_adds(
    numbers: &[u64; 56],
    strides: &[i64; 24],
    adds: &mut [i64],
    from: Flat,
    limit: Flat,
) -> Flat
    requires admits { Admits numbers.now strides.now × NoneLeaving numbers.now strides.now from.0 limit.0 × (from.0 ≤ limit.0) }
    requires adds_len { length adds.old ≡ copies (card_of numbers.now strides.now) }
    ensures { Sought (λ f. Leaves (card_of numbers.now strides.now) f last_axis) limit.0 result.0 }
{
    put_adds(numbers, strides, adds);
    first_m(numbers, strides, adds, from, limit)
}

// The first element below a limit that leaves on m, or the limit, where none before a place does. Public,
// with a requires, for the crate above.
pub fn first_leaving(numbers: &[u64; 56], strides: &[i64; 24], from: Flat, limit: Flat) -> Flat
    requires { Admits numbers.now strides.now × NoneLeaving numbers.now strides.now from.0 limit.0 }
    ensures { Sought (λ f. Leaves (card_of numbers.now strides.now) f last_axis) limit.0 result.0 }
{
    if limit.0 <= from.0 {
        return limit;
    }
    let copies = numbers[card::COPIES] as usize;
    let mut space = [0i64; card::MOST_COPIES as usize];
    first_by_adds(numbers, strides, &mut space[..copies], from, limit)
}
