// The admission of a card: checks 1 to 6 in the document's order, for any numbers in any field.
#![tactic(auto)]

ghost use Rattle.std.specs.Prelude.{◌≡◌, true, List, ℕ, ◌≤◌, ℤ, length, Ok};
ghost use Rattle.std.proofs.Math.Seq.{slice};
ghost use Rattle.answers.specs.Refusals.{no_refusal};
ghost use Rattle.card.specs.Lists.{all, within, within_z};
ghost use Rattle.card.specs.Limits.{least_stride, most_stride};
ghost use Rattle.card.specs.Admission.{counts_fit, iters_fit, marks_fit, iters_on_axes, space_fits, few_enough, field_checks, admission};
ghost use Rattle.card.specs.Packed.{iters_of, marks_there, strides_there, card_of, Whole, ListOf};

use answers::Refusal;
use card::Card;

// The most iters of a shard and of a replica.
const MOST_SHARD: u64 = 8;

const MOST_REPLICA: u64 = 4;

// The largest extent, and the least and the largest stride and offset.
const MOST_EXTENT: u64 = 65536;

const LEAST_STRIDE: i64 = -65536;

const MOST_STRIDE: i64 = 65535;

// And of a marked iter.
const LEAST_MARKED: i64 = 0;

const MOST_MARKED: i64 = 0;

// The most cells and elements.
const MOST_CELLS: u64 = 65536;

const MOST_ELEMENTS: u64 = 65536;

// Whether the numbers from one place up to another all lie within the limits.
fn all_within(numbers: &[u64], from: usize, end: usize, least: u64, most: u64) -> bool
    requires { (from ≤ end) × (end ≤ length numbers.now) }
    ensures { result ≡ all (within least most) (slice from end numbers.now) }
{
    let mut fit = true;
    for k in from..end {
        let number = numbers[k];
        fit = fit & ((least <= number) & (number <= most));
    }
    fit
}

// The same of signed numbers.
fn all_between(numbers: &[i64], from: usize, end: usize, least: i64, most: i64) -> bool
    requires { (from ≤ end) × (end ≤ length numbers.now) }
    ensures { result ≡ all (within_z least most) (slice from end numbers.now) }
{
    let mut fit = true;
    for k in from..end {
        let number = numbers[k];
        fit = fit & ((least <= number) & (number <= most));
    }
    fit
}

// Check 1: the iter counts of shard and replica. Checks 2, 3 and 5 read as many iters as it allows,
// and require it.
fn counts_fit(numbers: &[u64; 56]) -> bool
    ensures { (strides : List ℤ) → result ≡ counts_fit (card_of numbers.now strides) }
{
    let shard = numbers[card::COUNTS + card::SHARD];
    let replica = numbers[card::COUNTS + card::REPLICA];
    (1 <= shard) & (shard <= MOST_SHARD) & (replica <= MOST_REPLICA)
}

// What one walk over a list of iters says of it for checks 2 and 3.
#[derive(Clone, Copy)]
struct Fits {
    // two answers of one walk, neither a flag of the other
    limits: bool,
    axes: bool,
}

// Whether the extents and the strides of a list of iters lie within the limits, and whether every axis is one.
fn list_fits(numbers: &[u64; 56], strides: &[i64; 24], list: usize) -> Fits
    requires { ListOf numbers.now list }
    ensures limits_value { result.limits ≡ iters_fit (iters_of numbers.now strides.now list) }
    ensures axes_value { result.axes ≡ iters_on_axes (iters_of numbers.now strides.now list) }
{
    let count = numbers[card::COUNTS + list] as usize;
    let mut extents = true;
    let mut steps = true;
    let mut axes = true;
    for k in 0..count {
        let extent = numbers[16 * list + k];
        let stride = strides[8 * list + k];
        let axis = numbers[16 * list + 8 + k];
        extents = extents & ((1 <= extent) & (extent <= MOST_EXTENT));
        steps = steps & ((LEAST_STRIDE <= stride) & (stride <= MOST_STRIDE));
        axes = axes & (axis <= card::LAST_AXIS);
    }
    Fits {
        limits: extents & steps,
        axes,
    }
}

// Whether the strides of the marked iters lie within theirs.
fn marks_fit(numbers: &[u64; 56], strides: &[i64]) -> bool
    requires { ListOf numbers.now 0 × (length strides.now ≡ 24) }
    ensures { result ≡ marks_fit (marks_there numbers.now strides.now) (strides_there numbers.now strides.now) }
{
    let count = numbers[card::COUNTS + card::SHARD] as usize;
    let mut fit = true;
    for k in 0..count {
        let stride = strides[k];
        fit = fit
            & ((numbers[card::MARKS + k] == 0)
                | ((LEAST_MARKED <= stride) & (stride <= MOST_MARKED)));
    }
    fit
}

// The offset, of check 2.
fn offset_fits(strides: &[i64; 24]) -> bool
    ensures { (numbers : List ℕ) → result ≡ all (within_z least_stride most_stride) (card_of numbers strides.now).offset }
{
    all_between(
        strides,
        card::OFFSET,
        card::OFFSET + 8,
        LEAST_STRIDE,
        MOST_STRIDE,
    )
}

// Checks 1 to 3. Public for the crates above.
pub fn check_fields(numbers: &[u64; 56], strides: &[i64; 24]) -> Result<(), Refusal>
    ensures { result ≡ field_checks (card_of numbers.now strides.now) no_refusal }
{
    if !counts_fit(numbers) {
        return Err(Refusal::Counts);
    }
    let shard = list_fits(numbers, strides, card::SHARD);
    let replica = list_fits(numbers, strides, card::REPLICA);
    if !(shard.limits & marks_fit(numbers, strides) & replica.limits & offset_fits(strides)) {
        return Err(Refusal::Limits);
    }
    if !(shard.axes & replica.axes) {
        return Err(Refusal::Axis);
    }
    Ok(())
}

// Check 4 of a space by itself: every length, and the cells. Public for the crates above.
pub fn space_fits(lengths: [u64; 8]) -> bool
    ensures { result ≡ space_fits lengths }
{
    all_within(&lengths, 0, 8, 1, card::MOST_LENGTH)
        & (card_products::product(lengths, 8) <= MOST_CELLS)
}

// Check 4 of a packed card.
fn lengths_fit(numbers: &[u64; 56]) -> bool
    ensures { (strides : List ℤ) → Whole numbers.now strides → result ≡ space_fits (card_of numbers.now strides).lengths }
{
    all_within(
        numbers,
        card::LENGTHS,
        card::LENGTHS + 8,
        1,
        card::MOST_LENGTH,
    ) & (numbers[card::CELLS] <= MOST_CELLS)
}

// Check 5: the elements and the copies.
fn few_enough(numbers: &[u64; 56]) -> bool
    ensures { (strides : List ℤ) → Whole numbers.now strides → result ≡ few_enough (card_of numbers.now strides) }
{
    (numbers[card::ELEMENTS] <= MOST_ELEMENTS) & (numbers[card::COPIES] <= card::MOST_COPIES)
}

// The admission of a packed card: the first check that it fails refuses it. Public, with a requires, for
// the crates above, which pack a card first.
pub fn admit_packed(numbers: &[u64; 56], strides: &[i64; 24]) -> Result<(), Refusal>
    requires { Whole numbers.now strides.now }
    ensures { result ≡ admission (card_of numbers.now strides.now) }
{
    check_fields(numbers, strides)?;
    if !lengths_fit(numbers) {
        return Err(Refusal::Space);
    }
    if !few_enough(numbers) {
        return Err(Refusal::TooMany);
    }
    if !swizzle::is_permitted(numbers[card::M], numbers[card::B], numbers[card::S]) {
        return Err(Refusal::Swizzle);
    }
    Ok(())
}

// The admission of any card to checks 1 to 6.
pub fn admit(card: Card) -> Result<(), Refusal>
    ensures { result ≡ admission card }
{
    let packed = card_packed::pack(card);
    let numbers = packed.numbers;
    let strides = packed.strides;
    admit_packed(&numbers, &strides)
}
