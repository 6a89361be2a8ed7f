// The cells of a packed card's copies in runs, by level and m: what a step and each copy add, and a row filled by it.
// An element begins at a level, the number of its sums without m, and at an m; in a run both grow by one step, and each copy adds its own.
#![tactic(auto)]

ghost use Rattle.std.specs.Prelude.{◌≡◌, true, List, ℤ, pos, ◌+ℤ◌, ◌≤◌, length};
ghost use Rattle.std.proofs.Math.Seq.{slice};
ghost use Rattle.card.specs.Card.{listed};
ghost use Rattle.card.specs.Packed.{iters_of, swizzle_of, card_of, ListOf, Admits};
ghost use Rattle.card.specs.Admission.{space_fits};
ghost use Rattle.rules.specs.Rules.{part, swizzled_z};
ghost use Rattle.copies_sums.specs.Walks.{Sums};
ghost use Rattle.rules_linear.specs.Runs.{run_length};
ghost use Rattle.rules_linear.specs.Levels.{level, base};
ghost use Rattle.copies_runs.specs.Clauses.{Adds, CellThere, CopiesTo, Fillable, FilledTo};

use answers::{Cell, Flat};
use swizzle::Swizzle;

// The axis m, the last.
const M: usize = card::LAST_AXIS as usize;

// A level and an m.
#[derive(Clone, Copy)]
pub struct LevelAndM {
    pub level: i64,
    pub m: i64,
}

// How many elements of the shard differ in one component alone: the extent of its last iter whose
// extent is not 1. Public, with a requires, for the crate above.
pub fn run_length(numbers: &[u64; 56]) -> u64
    requires { ListOf numbers.now 0 }
    ensures { (strides : List ℤ) → result ≡ run_length (listed (iters_of numbers.now strides 0)) }
{
    let count = numbers[card::COUNTS + card::SHARD] as usize;
    for k in (0..count).rev() {
        let extent = numbers[k];
        if extent != 1 {
            return extent;
        }
    }
    1
}

// The level of sums: their row-major number, m left out. Public, with a requires, for the crate above.
pub fn weigh(numbers: &[u64; 56], sums: &[i64; 8]) -> i64
    requires { (length numbers.now ≡ 56) × (space_fits (slice 32 40 numbers.now) ≡ true) × Sums sums.now }
    ensures { result ≡ level (slice 32 40 numbers.now) sums.now }
{
    let mut weight = numbers[card::LENGTHS + M];
    let mut sum: i64 = 0;
    for axis in (0..M).rev() {
        sum = copies_sums::step(sum, weight, sums[axis]);
        weight = weight * numbers[card::LENGTHS + axis];
    }
    sum
}

// The swizzle of a packed card. Public, with a requires, for the crate above.
pub fn swizzle_of(numbers: &[u64; 56]) -> Swizzle
    requires { length numbers.now ≡ 56 }
    ensures { result ≡ swizzle_of numbers.now }
{
    Swizzle {
        m: numbers[card::M],
        b: numbers[card::B],
        s: numbers[card::S],
    }
}

// The cell of a copy inside the space by its level and its m. Public, with a requires, for the crate above.
pub fn cell_at(by: Swizzle, level: i64, m: i64) -> Cell
    requires { CellThere by level m }
    ensures { pos result.0 ≡ level +ℤ swizzled_z by m }
{
    let on_m = swizzle::swizzle_permitted(by.m, by.b, by.s, m as u64);
    Cell((level + on_m as i64) as u64)
}

// What a list of iters adds to level and m at an index. Public, with a requires, for the crate above.
pub fn added(numbers: &[u64; 56], strides: &[i64; 24], list: usize, index: u64) -> LevelAndM
    requires { Admits numbers.now strides.now × (list ≤ 1) }
    ensures { Adds (slice 32 40 numbers.now) (part (iters_of numbers.now strides.now list) index) result }
{
    let mut sums = [0i64; 8];
    copies_sums::walk(numbers, strides, list, index, &mut sums);
    let level = weigh(numbers, &sums);
    LevelAndM { level, m: sums[M] }
}

// Where an element begins: level and m of its base, shard and offset. Public, with a requires, for the
// crate above.
pub fn begin(numbers: &[u64; 56], strides: &[i64; 24], flat: Flat) -> LevelAndM
    requires { Admits numbers.now strides.now }
    ensures { Adds (slice 32 40 numbers.now) (base (card_of numbers.now strides.now) flat.0) result }
{
    let mut sums = copies::offset(strides);
    copies_sums::walk(numbers, strides, card::SHARD, flat.0, &mut sums);
    let level = weigh(numbers, &sums);
    LevelAndM { level, m: sums[M] }
}

// What each replica combination adds to level and m. Public, with a requires, for the crate above.
pub fn put_copies(numbers: &[u64; 56], strides: &[i64; 24], levels: &mut [i64], ms: &mut [i64])
    requires { Admits numbers.now strides.now × (length ms.old ≡ length levels.old) }
    ensures { CopiesTo (card_of numbers.now strides.now) (length levels.old) (length levels.old) levels.new ms.new }
{
    for combination in 0..levels.len() {
        let copy = added(numbers, strides, card::REPLICA, combination as u64);
        let level = copy.level;
        let m = copy.m;
        levels[combination] = level;
        ms[combination] = m;
    }
}

// Writes the cells of all copies of an element that begins at a level and an m. Public, with a
// requires, for the crate above.
pub fn fill(numbers: &[u64; 56], level: i64, m: i64, levels: &[i64], ms: &[i64], row: &mut [u32])
    requires { Fillable numbers.now level m levels.now ms.now row.old }
    ensures { FilledTo numbers.now level m levels.now ms.now row.old row.new (length row.old) }
{
    let by = swizzle_of(numbers);
    for (combination, entry) in row.iter_mut().enumerate() {
        let cell = cell_at(by, level + levels[combination], m + ms[combination]);
        *entry = cell.0 as u32;
    }
}
