// From element to cell on a packed card: one walk over the iters, the swizzle of m, the number among the lengths, and the row of an element's copies.
#![tactic(auto)]

ghost use Rattle.std.specs.Prelude.{◌≡◌, true, map, ◌+◌, min, length, take};
ghost use Rattle.std.proofs.Math.Seq.{slice};
ghost use Rattle.card.specs.Packed.{iters_of, swizzle_of, card_of, Admits};
ghost use Rattle.card.specs.Admission.{space_fits};
ghost use Rattle.rules.specs.RowMajor.{position};
ghost use Rattle.rules.specs.Rules.{swizzled_z, on_axis, spot_at, spot};
ghost use Rattle.rules.specs.Walked.{position_from, spot_from, PlacedRow};
ghost use Rattle.copies.specs.Clauses.{number_of, cell_from, axis_from, Permits, Numerable, position_of, Ready};

use answers::{Cell, Flat};
use rules::{Position, Spot};

// How many axes there are: past the last stands for none. Public for the crates above.
pub const AXES: u64 = card::LAST_AXIS + 1;

// The axis m, the last.
const M: usize = card::LAST_AXIS as usize;

// What a coordinate below zero counts as: the largest length, which no coordinate inside reaches.
const BELOW_ZERO: u64 = card::MOST_LENGTH;

// Where coordinates are among so many sizes from a place on, as one word for the loops: their number
// row-major, or BEYOND and the first place past its size.
fn number_among(sizes: &[u64], from: usize, coordinates: &[u64; 8], count: usize) -> u64
    requires { Numerable sizes.now from count × (length coordinates.now ≡ 8) }
    ensures { result ≡ number_of (position (slice from (from + count) sizes.now) (take count coordinates.now)) }
{
    let mut number: u64 = 0;
    for k in 0..count {
        let size = sizes[from + k];
        let coordinate = coordinates[k];
        if size <= coordinate {
            return card::BEYOND + k as u64;
        }
        number = number * size + coordinate;
    }
    number
}

// The position that such a word stands for.
fn position_from(number: u64) -> Position
    ensures { result ≡ position_of number }
{
    if number < card::BEYOND {
        Position::At(number)
    } else {
        Position::Past(number - card::BEYOND)
    }
}

// Where coordinates are among sizes: their number row-major, or the first place past its size. Public,
// with a requires, for the crates above.
pub fn locate(sizes: &[u64; 8], coordinates: &[u64; 8], count: u64) -> Position
    requires { Numerable sizes.now 0 count × (length coordinates.now ≡ 8) }
    ensures { result ≡ position (take count sizes.now) (take count coordinates.now) }
{
    position_from(number_among(sizes, 0, coordinates, count as usize))
}

// The spot of coordinates in a packed card's space. Public, with a requires, for the crates above, which
// ask for a cell by its coordinates.
pub fn spot_at(numbers: &[u64; 56], coordinates: &[u64; 8]) -> Spot
    requires { (space_fits (slice 32 40 numbers.now) ≡ true) × (length coordinates.now ≡ 8) }
    ensures { result ≡ spot_at (position (slice 32 40 numbers.now) coordinates.now) }
{
    match position_from(number_among(numbers, card::LENGTHS, coordinates, 8)) {
        Position::At(number) => Spot::Inside(Cell(number)),
        Position::Past(axis) => Spot::Outside(axis),
    }
}

// A finished sum as a coordinate.
fn on_axis(sum: i64) -> u64
    ensures { result ≡ on_axis sum }
{
    if sum < 0 { BELOW_ZERO } else { sum as u64 }
}

// The finished sum of m as a coordinate: swizzled, unless it is below zero.
fn swizzled_on_axis(numbers: &[u64; 56], sum: i64) -> u64
    requires { Permits numbers.now }
    ensures { result ≡ on_axis (swizzled_z (swizzle_of numbers.now) sum) }
{
    if sum < 0 {
        BELOW_ZERO
    } else {
        swizzle::swizzle_permitted(
            numbers[card::M],
            numbers[card::B],
            numbers[card::S],
            sum as u64,
        )
    }
}

// The finished sums as coordinates.
fn finish(sums: &[i64; 8], coordinates: &mut [u64; 8])
    requires { (length sums.now ≡ 8) × (length coordinates.old ≡ 8) }
    ensures { coordinates.new ≡ map on_axis sums.now }
{
    for axis in 0..8 {
        coordinates[axis] = on_axis(sums[axis]);
    }
}

// Where one copy goes, as one word: the base of its element, then the replica, then the swizzle of m,
// and only then the space is asked.
fn copy_number(base: &[i64; 8], numbers: &[u64; 56], strides: &[i64; 24], combination: u64) -> u64
    requires { Ready base.now numbers.now strides.now }
    ensures { result ≡ number_of (position_from (slice 32 40 numbers.now) (swizzle_of numbers.now) (iters_of numbers.now strides.now 1) base.now combination) }
{
    let mut sums = *base;
    copies_sums::walk(numbers, strides, card::REPLICA, combination, &mut sums);
    let mut coordinates: [u64; 8] = [0; 8];
    finish(&sums, &mut coordinates);
    coordinates[M] = swizzled_on_axis(numbers, sums[M]);
    number_among(numbers, card::LENGTHS, &coordinates, 8)
}

// The cell that such a word names as lent memory holds it, 0 outside.
fn cell_from(number: u64) -> u32
    ensures { result ≡ cell_from number }
{
    if number < card::BEYOND {
        number as u32
    } else {
        0
    }
}

// The axis on which it lies outside, or AXES.
fn axis_from(number: u64) -> u64
    ensures { result ≡ axis_from number }
{
    if number < card::BEYOND {
        AXES
    } else {
        number - card::BEYOND
    }
}

// Writes the cells of all copies of an element whose base is known, and gives the smallest axis on
// which one lies outside, or AXES.
fn place_copies(base: &[i64; 8], numbers: &[u64; 56], strides: &[i64; 24], row: &mut [u32]) -> u64
    requires { Ready base.now numbers.now strides.now }
    ensures { PlacedRow (spot_from (slice 32 40 numbers.now) (swizzle_of numbers.now) (iters_of numbers.now strides.now 1) base.now) row.old row.new result }
{
    let mut outside = AXES;
    for (combination, cell) in row.iter_mut().enumerate() {
        let number = copy_number(base, numbers, strides, combination as u64);
        *cell = cell_from(number);
        outside = outside.min(axis_from(number));
    }
    outside
}

// The offset of a packed card. Public, with a requires, for the crates above.
pub fn offset(strides: &[i64; 24]) -> [i64; 8]
    requires { length strides.now ≡ 24 }
    ensures { result ≡ slice 16 24 strides.now }
{
    [
        strides[16],
        strides[17],
        strides[18],
        strides[19],
        strides[20],
        strides[21],
        strides[22],
        strides[23],
    ]
}

// Writes the cells of all copies of an element, as many combinations as the row is long, and gives
// the smallest axis on which one lies outside, or AXES. Public, with a requires, for the crates
// above, which pack and admit a card first.
pub fn place_row(numbers: &[u64; 56], strides: &[i64; 24], flat: Flat, row: &mut [u32]) -> u64
    requires { Admits numbers.now strides.now }
    ensures { PlacedRow (spot (card_of numbers.now strides.now) flat.0) row.old row.new result }
{
    let mut base = offset(strides);
    copies_sums::walk(numbers, strides, card::SHARD, flat.0, &mut base);
    place_copies(&base, numbers, strides, row)
}
