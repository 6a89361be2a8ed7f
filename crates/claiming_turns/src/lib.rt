// From one run of a packed card's elements to the next, by an odometer over the iters that are slower than the run's.
// It has one digit for each, and how far one step of it moves level and m.
// From run to run an odometer turns (`claiming_turns`): a digit for each iter slower than the run's, and what one step of it adds to level
// and m, made once a card; so a run begins by some additions and not by a walk with divisions. Digits are any numbers below their extents,
// and what they lack of the next index is one step of the digit that comes next (`index_forth`, `index_back`); that they are the components
// of that index is the one law in which anything is divided (`digits_back`).
#![tactic(auto)]

ghost use Rattle.std.specs.Prelude.{◌≡◌, List, ◌<◌, ℤ, pos, ◌+ℤ◌, ◌*ℤ◌, length, get_or};
ghost use Rattle.std.proofs.Math.Seq.{slice};
ghost use Rattle.card.specs.Card.{none};
ghost use Rattle.card.specs.Packed.{ListOf, Admits};
ghost use Rattle.copies_sums.specs.Walks.{Steps};
ghost use Rattle.copies_runs.specs.Clauses.{Adds};
ghost use Rattle.claiming_turns.specs.Turns.{shard_iters, unit, RunFrom, WaysTo, Turnable, Turned};

use copies_runs::LevelAndM;

// The axis m, the last.
const M: usize = card::LAST_AXIS as usize;

// How many iters of the shard are slower than the run's, the last whose extent is not 1. Public, with a
// requires, for the crate above.
pub fn run_from(numbers: &[u64; 56]) -> usize
    requires { ListOf numbers.now 0 }
    ensures { (strides : List ℤ) → RunFrom (shard_iters numbers.now strides) result }
{
    let count = numbers[card::COUNTS + card::SHARD] as usize;
    for k in (0..count).rev() {
        if numbers[k] != 1 {
            return k;
        }
    }
    0
}

// What one step of an iter of the shard adds to level and m.
fn way(numbers: &[u64; 56], strides: &[i64; 24], k: usize) -> LevelAndM
    requires { Admits numbers.now strides.now × (k < get_or numbers.now 40 0) }
    ensures { Adds (slice 32 40 numbers.now) (unit (get_or (shard_iters numbers.now strides.now) k none)) result }
{
    let mut sums = [0i64; 8];
    let stride = strides[k];
    let axis = numbers[8 + k] as usize;
    sums[axis] = stride;
    let level = copies_runs::weigh(numbers, &sums);
    LevelAndM { level, m: sums[M] }
}

// The same for the first of them. Public, with a requires, for the crate above.
pub fn put_ways(
    numbers: &[u64; 56],
    strides: &[i64; 24],
    from: usize,
    levels: &mut [i64; 8],
    ms: &mut [i64; 8],
)
    requires { Admits numbers.now strides.now × RunFrom (shard_iters numbers.now strides.now) from × (length levels.old ≡ 8) × (length ms.old ≡ 8) }
    ensures { WaysTo numbers.now strides.now from levels.new ms.new }
{
    for k in 0..from {
        let step = way(numbers, strides, k);
        let level = step.level;
        let m = step.m;
        levels[k] = level;
        ms[k] = m;
    }
}

// A number less so many steps.
fn back(value: i64, many: u64, step: i64) -> i64
    requires { Steps value many step }
    ensures { result +ℤ pos many *ℤ step ≡ value }
{
    value - many as i64 * step
}

// From the place of a run to that of the next, the digits too; after the last the digits are all 0. Public,
// with a requires, for the crate above.
pub fn turn(
    numbers: &[u64; 56],
    strides: &[i64; 24],
    from: usize,
    levels: &[i64; 8],
    ms: &[i64; 8],
    digits: &mut [u64; 8],
    start: LevelAndM,
) -> LevelAndM
    requires { Turnable numbers.now strides.now from levels.now ms.now digits.old start }
    ensures { Turned numbers.now strides.now from digits.old digits.new result }
{
    let mut level = start.level;
    let mut m = start.m;
    for k in (0..from).rev() {
        let digit = digits[k];
        if digit + 1 < numbers[k] {
            digits[k] = digit + 1;
            level = level + levels[k];
            m = m + ms[k];
            return LevelAndM { level, m };
        }
        digits[k] = 0;
        level = back(level, digit, levels[k]);
        m = back(m, digit, ms[k]);
    }
    LevelAndM { level, m }
}
