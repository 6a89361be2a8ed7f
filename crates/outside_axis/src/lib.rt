// The first element of which a copy strays from a bound on an axis, found from the slowest iter on without a look at the others.
// The first element outside is the one near enough to the far end: an element leaves an axis upwards exactly where it falls short of the
// shard's far end by no more than the card's far end lies beyond the length. So from the slowest iter on each stays back as many steps as
// what is spare allows, and one walk serves both ways, without negative numbers.
// An element and its axis are one number, 8 * flat + axis: the smallest is the first element, and of it the smallest axis.
#![tactic(auto)]

ghost use Rattle.std.specs.Prelude.{◌≤◌, ◌≡◌, nat_abs};
ghost use Rattle.card.specs.Card.{elements};
ghost use Rattle.card.specs.Packed.{farthest, iters_of, card_of};
ghost use Rattle.rules_linear.specs.Reaching.{ahead, steps_back, first_index};
ghost use Rattle.rules_linear.specs.Leaving.{Sought};
ghost use Rattle.outside_axis.specs.Straying.{Strays, Reaches};
ghost use Rattle.outside_axis.specs.Clauses.{Indexed, Over, AxisEnded};

use answers::Flat;

// How far one step of an iter moves an axis up, or down.
fn step_ahead(on: u64, stride: i64, axis: u64, upwards: bool) -> u64
    requires { nat_abs stride ≤ farthest }
    ensures { result ≡ ahead upwards axis (record { extent = 0; stride = stride; axis = on }) }
{
    if on != axis {
        return 0;
    }
    let forward = 0 <= stride;
    if upwards {
        if forward { stride as u64 } else { 0 }
    } else {
        if forward { 0 } else { (0 - stride) as u64 }
    }
}

// How many steps an iter may stay back from its last component: all where they move nothing.
fn steps_back(extent: u64, weight: u64, spare: u64) -> u64
    requires { 1 ≤ extent }
    ensures { result ≡ steps_back extent weight spare }
{
    if weight == 0 {
        return extent - 1;
    }
    (extent - 1).min(spare / weight)
}

// The smallest index that leaves an axis near enough to its far end: from the slowest iter on, the smallest
// component that what is spare allows.
fn first_within(
    numbers: &[u64; 56],
    strides: &[i64; 24],
    list: usize,
    axis: u64,
    upwards: bool,
    spare: u64,
) -> u64
    requires { Indexed numbers.now strides.now list }
    ensures { result ≡ first_index upwards axis spare (iters_of numbers.now strides.now list) }
{
    let count = numbers[card::COUNTS + list] as usize;
    let mut left = spare;
    let mut index: u64 = 0;
    for k in 0..count {
        let extent = numbers[16 * list + k];
        let weight = step_ahead(
            numbers[16 * list + 8 + k],
            strides[8 * list + k],
            axis,
            upwards,
        );
        let back = steps_back(extent, weight, left);
        index = index * extent + (extent - 1 - back);
        left = left - back * weight;
    }
    index
}

// The first element whose copies reach beyond a bound, or below zero, or as many as there are, by how far
// the card's far end does.
fn first_over(
    numbers: &[u64; 56],
    strides: &[i64; 24],
    axis: u64,
    bound: u64,
    upwards: bool,
    over: i64,
) -> Flat
    requires { Over numbers.now strides.now axis bound upwards over }
    ensures { Sought (Reaches upwards (card_of numbers.now strides.now) axis bound) (elements (card_of numbers.now strides.now)) result.0 }
{
    if over < 0 {
        return Flat(numbers[card::ELEMENTS]);
    }
    Flat(first_within(numbers, strides, card::SHARD, axis, upwards, over as u64))
}

// The first element of which a copy does not lie from 0 to below a bound on an axis, or as many as there
// are, by the card's two far ends. Public, with a requires, for the crate above.
pub fn first_astray(
    numbers: &[u64; 56],
    strides: &[i64; 24],
    axis: u64,
    bound: u64,
    low: i64,
    high: i64,
) -> Flat
    requires { AxisEnded numbers.now strides.now axis bound low high }
    ensures { Sought (Strays (card_of numbers.now strides.now) axis bound) (elements (card_of numbers.now strides.now)) result.0 }
{
    let above = first_over(numbers, strides, axis, bound, true, high - bound as i64);
    let below = first_over(numbers, strides, axis, bound, false, -1 - low);
    Flat(above.0.min(below.0))
}
