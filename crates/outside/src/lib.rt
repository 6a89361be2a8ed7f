// The first element of which a copy lies outside the space, and the smallest axis for it, without a pass over the elements.
#![tactic(auto)]

ghost use Rattle.std.specs.Prelude.{◌+◌, ◌≤◌, ◌<◌, get_or};
ghost use Rattle.card.specs.Card.{elements};
ghost use Rattle.card.specs.Packed.{card_of, Admits};
ghost use Rattle.rules_linear.specs.Leaving.{Sought, Leaves};
ghost use Rattle.outside_ends.specs.Clauses.{BetweenTo};
ghost use Rattle.outside_axis.specs.Clauses.{AxisEnded as EndedOn};
ghost use Rattle.outside.specs.Outside.{FindsOutside, FirstWord, Ended};

use answers::Flat;

// What a search for the first element outside finds.
#[derive(Clone, Copy)]
pub struct Outside {
    pub flat: Flat,
    pub axis: u64,
}

// The axis m, the last.
const M: usize = card::LAST_AXIS as usize;

// The first element that leaves on an axis other than m, or as many as there are: none where the far ends
// lie inside on it.
fn first_on_axis(numbers: &[u64; 56], strides: &[i64; 24], axis: usize, low: i64, high: i64) -> Flat
    requires { EndedOn numbers.now strides.now axis (get_or numbers.now (32 + axis) 0) low high × (axis < 7) }
    ensures { Sought (λ f. Leaves (card_of numbers.now strides.now) f axis) (elements (card_of numbers.now strides.now)) result.0 }
{
    let length = numbers[card::LENGTHS + axis];
    if (0 <= low) & (high < length as i64) {
        return Flat(numbers[card::ELEMENTS]);
    }
    outside_axis::first_astray(numbers, strides, axis as u64, length, low, high)
}

// The first element that leaves on an axis other than m, and the smallest such axis for it, as one number:
// none leaves on the axes before the first on which the far ends do not lie inside.
fn first_on_axes(
    numbers: &[u64; 56],
    strides: &[i64; 24],
    first: usize,
    low: &[i64; 8],
    high: &[i64; 8],
) -> u64
    requires { Ended numbers.now strides.now low.now high.now × (first ≤ 7) × BetweenTo first low.now high.now numbers.now }
    ensures { FirstWord (card_of numbers.now strides.now) 7 result }
{
    let mut word = copies::AXES * numbers[card::ELEMENTS];
    for axis in first..M {
        let flat = first_on_axis(numbers, strides, axis, low[axis], high[axis]);
        word = word.min(copies::AXES * flat.0 + axis as u64);
    }
    word
}

// The same on all axes: m is looked at only before the element found so far, from the first on that
// reaches beyond the whole blocks of its length. That one leaves where the length is whole blocks.
fn first_of_all(
    numbers: &[u64; 56],
    strides: &[i64; 24],
    first: usize,
    low: &[i64; 8],
    high: &[i64; 8],
) -> u64
    requires { Ended numbers.now strides.now low.now high.now × (first ≤ 7) × BetweenTo first low.now high.now numbers.now }
    ensures { FirstWord (card_of numbers.now strides.now) 8 result }
{
    let word = first_on_axes(numbers, strides, first, low, high);
    let whole = outside_ends::whole_blocks(numbers);
    let from = outside_axis::first_astray(
        numbers,
        strides,
        card::LAST_AXIS,
        whole,
        low[M],
        high[M],
    );
    if whole == numbers[card::LENGTHS + M] {
        return word.min(copies::AXES * from.0 + card::LAST_AXIS);
    }
    let flat = outside_swizzled::first_leaving(numbers, strides, from, Flat(word / copies::AXES));
    word.min(copies::AXES * flat.0 + card::LAST_AXIS)
}

// What lies outside the space: nothing where the card's far ends lie inside, and else the first element
// that leaves. Public, with a requires, for the crate above.
pub fn find_outside(numbers: &[u64; 56], strides: &[i64; 24]) -> Option<Outside>
    requires { Admits numbers.now strides.now }
    ensures { FindsOutside (card_of numbers.now strides.now) result }
{
    let mut low = copies::offset(strides);
    let mut high = copies::offset(strides);
    outside_ends::ends(numbers, strides, &mut low, &mut high);
    let first = outside_ends::first_axis(&low, &high, numbers);
    if (first == M) & outside_ends::m_between(low[M], high[M], numbers) {
        return None;
    }
    let word = first_of_all(numbers, strides, first, &low, &high);
    if copies::AXES * numbers[card::ELEMENTS] <= word {
        return None;
    }
    Some(Outside {
        flat: Flat(word / copies::AXES),
        axis: word % copies::AXES,
    })
}
