// The far ends of a card, and whether they lie inside the space: then all of it does.
// Far ends are copies of the card, not a bound of their own: the index whose components are the last or 0, by the sign of each stride, so
// that its sums are made by the walk that makes all sums, and that nothing lies beyond them is one law over the iters.
// On m whole blocks are asked for, whatever B: with B = 0 and M = 0 a block is one address and the question is exact; with B = 0 and M above
// 0 it asks for more than it must, and m is looked at from the first element on that reaches beyond the whole blocks.
#![tactic(auto)]

ghost use Rattle.std.specs.Prelude.{◌≡◌, true, false, ◌≤◌, length};
ghost use Rattle.card.specs.Packed.{iters_of, card_of, Admits};
ghost use Rattle.copies_sums.specs.Walks.{Walkable, Sums};
ghost use Rattle.outside_reach.specs.Ends.{far_end};
ghost use Rattle.outside_ends.specs.Clauses.{Moves, EndSums, blocks_of, MBetween, BetweenTo, Spaced};

// The axis m, the last.
const M: usize = card::LAST_AXIS as usize;

// The component of an iter that moves its axis furthest up, or down.
fn far_end(extent: u64, stride: i64, up: bool) -> u64
    requires { 1 ≤ extent }
    ensures { result ≡ far_end up (record { extent = extent; stride = stride; axis = 0 }) }
{
    let forward = 0 <= stride;
    if up {
        if forward { extent - 1 } else { 0 }
    } else {
        if forward { 0 } else { extent - 1 }
    }
}

// Adds to the sums at both far ends what a list of iters adds there: the walk to the index of each, of
// which nothing has to be divided.
fn spread(
    numbers: &[u64; 56],
    strides: &[i64; 24],
    list: usize,
    low: &mut [i64; 8],
    high: &mut [i64; 8],
)
    requires { Walkable numbers.now strides.now list × Sums low.old × Sums high.old }
    ensures moves { Moves false (iters_of numbers.now strides.now list) low.old low.new }
    ensures moves_2 { Moves true (iters_of numbers.now strides.now list) high.old high.new }
{
    let count = numbers[card::COUNTS + list] as usize;
    for k in (0..count).rev() {
        let extent = numbers[16 * list + k];
        let stride = strides[8 * list + k];
        let axis = numbers[16 * list + 8 + k] as usize;
        let down = copies_sums::step(low[axis], far_end(extent, stride, false), stride);
        low[axis] = down;
        let up = copies_sums::step(high[axis], far_end(extent, stride, true), stride);
        high[axis] = up;
    }
}

// The sums at both far ends of a card, where its offset stands before: those of the copies that lie there,
// before the swizzle. Public, with a requires, for the crate above.
pub fn ends(numbers: &[u64; 56], strides: &[i64; 24], low: &mut [i64; 8], high: &mut [i64; 8])
    requires { Admits numbers.now strides.now × (low.old ≡ (card_of numbers.now strides.now).offset) × (high.old ≡ (card_of numbers.now strides.now).offset) }
    ensures end_sums { EndSums (card_of numbers.now strides.now) false low.new }
    ensures end_sums_2 { EndSums (card_of numbers.now strides.now) true high.new }
{
    spread(numbers, strides, card::SHARD, low, high);
    spread(numbers, strides, card::REPLICA, low, high);
}

// The whole blocks of m's length, which no swizzle leaves. Public, with a requires, for the crate above.
pub fn whole_blocks(numbers: &[u64; 56]) -> u64
    requires { Spaced numbers.now }
    ensures { result ≡ blocks_of numbers.now }
{
    let bits = numbers[card::M] + numbers[card::B];
    (numbers[card::LENGTHS + M] >> bits) << bits
}

// Whether m between two sums lies inside whole blocks. Public, with a requires, for the crate above.
pub fn m_between(low: i64, high: i64, numbers: &[u64; 56]) -> bool
    requires { Spaced numbers.now }
    ensures { result ≡ true → MBetween low high numbers.now }
{
    let whole = whole_blocks(numbers);
    (0 <= low) & (high < whole as i64)
}

// The first axis other than m on which the far ends do not lie inside the length, or m. Public, with a
// requires, for the crate above.
pub fn first_axis(low: &[i64; 8], high: &[i64; 8], numbers: &[u64; 56]) -> usize
    requires { (length low.now ≡ 8) × (length high.now ≡ 8) × Spaced numbers.now }
    ensures { (result ≤ 7) × BetweenTo result low.now high.now numbers.now }
{
    for axis in 0..M {
        let length = numbers[card::LENGTHS + axis] as i64;
        if (low[axis] < 0) | (length <= high[axis]) {
            return axis;
        }
    }
    M
}
