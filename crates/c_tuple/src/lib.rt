// A shape, or coordinates, as plain numbers, for C and for desk.
#![tactic(auto)]

ghost use Rattle.std.specs.Prelude.{◌≡◌};
ghost use Rattle.c_tuple.specs.Tuple.{tuple_from};

use placement_judged::Tuple;

// A shape, or coordinates: a count, and then eight numbers.
pub fn tuple(numbers: &[u64; 9]) -> Tuple
    ensures { result ≡ tuple_from numbers.now }
{
    Tuple {
        at: [
            numbers[1], numbers[2], numbers[3], numbers[4], numbers[5], numbers[6], numbers[7],
            numbers[8],
        ],
        count: numbers[0],
    }
}
