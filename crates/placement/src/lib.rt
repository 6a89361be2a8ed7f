// The placement of one element.
#![tactic(auto)]

ghost use Rattle.std.specs.Prelude.{◌≡◌, ◌≤◌, ◌<◌, length, take};
ghost use Rattle.card.specs.Packed.{beyond, card_of, Whole, Admits};
ghost use Rattle.card.specs.Card.{copies};
ghost use Rattle.placement_judged.specs.Placement.{shape_admitted, PlacementSays, Placing};
ghost use Rattle.placement.specs.Clauses.{Shaped, element, Placed};

use answers::{Flat, Refusal};
use card::Card;
use placement_judged::Tuple;
use rules::Position;

// The most dimensions of a shape.
const MOST_DIMENSIONS: u64 = 8;

// Check 9: whether a shape is admitted by this many elements. Its product is judged whole.
fn is_admitted(shape: Tuple, elements: u64) -> bool
    requires { elements < beyond }
    ensures { result ≡ shape_admitted shape elements }
{
    let at = shape.at;
    let count = shape.count;
    if (1 <= count) & (count <= MOST_DIMENSIONS) {
        card_products::product(at, count) == elements
    } else {
        false
    }
}

// Check 10 and rule 1: the element that coordinates name in an admitted shape.
fn flatten(shape: Tuple, coordinates: Tuple) -> Option<Flat>
    requires { Shaped shape }
    ensures { result ≡ element shape coordinates }
{
    let sizes = shape.at;
    let numbers = coordinates.at;
    if coordinates.count != shape.count {
        return None;
    }
    match copies::locate(&sizes, &numbers, shape.count) {
        Position::At(number) => Some(Flat(number)),
        Position::Past(_) => None,
    }
}

// Writes the first cells of a row.
fn write(row: &[u32; 64], memory: &mut [u32])
    requires { (length row.now ≡ 64) × (length memory.old ≤ 64) }
    ensures { memory.new ≡ take (length memory.old) row.now }
{
    memory.copy_from_slice(&row[..memory.len()]);
}

// Check 7 for one element, and its cells where it is passed: the smallest axis on which a copy lies
// outside, or AXES. The row is the function's own, since a refusal touches nothing.
fn place_copies(numbers: &[u64; 56], strides: &[i64; 24], flat: Flat, memory: &mut [u32]) -> u64
    requires { Admits numbers.now strides.now × (length memory.old ≡ copies (card_of numbers.now strides.now)) }
    ensures { Placed (card_of numbers.now strides.now) flat.0 memory.old memory.new result }
{
    let mut row = [0u32; card::MOST_COPIES as usize];
    let end = memory.len();
    let outside = copies::place_row(numbers, strides, flat, &mut row[..end]);
    if outside < copies::AXES {
        return outside;
    }
    write(&row, memory);
    outside
}

// The same for a card with one copy of each element, without a row of 64.
fn place_single(numbers: &[u64; 56], strides: &[i64; 24], flat: Flat, memory: &mut [u32]) -> u64
    requires { Admits numbers.now strides.now × (length memory.old ≡ copies (card_of numbers.now strides.now)) × (length memory.old ≡ 1) }
    ensures { Placed (card_of numbers.now strides.now) flat.0 memory.old memory.new result }
{
    let mut single = [0u32; 1];
    let smallest = copies::place_row(numbers, strides, flat, &mut single);
    if smallest < copies::AXES {
        return smallest;
    }
    memory[0] = single[0];
    smallest
}

// Either of the two.
fn place_cells(numbers: &[u64; 56], strides: &[i64; 24], flat: Flat, memory: &mut [u32]) -> u64
    requires { Admits numbers.now strides.now × (length memory.old ≡ copies (card_of numbers.now strides.now)) }
    ensures { Placed (card_of numbers.now strides.now) flat.0 memory.old memory.new result }
{
    if memory.len() == 1 {
        return place_single(numbers, strides, flat, memory);
    }
    place_copies(numbers, strides, flat, memory)
}

// The placement of one element of a packed card. Public, with a requires, for the crate above, which packs a
// card from plain numbers.
pub fn place_packed(
    numbers: &[u64; 56],
    strides: &[i64; 24],
    shape: Tuple,
    coordinates: Tuple,
    memory: &mut [u32],
) -> Result<u64, Refusal>
    requires { Whole numbers.now strides.now }
    ensures { Placing (card_of numbers.now strides.now) shape coordinates memory.old memory.new result }
{
    idle_search::admit_packed(numbers, strides)?;
    let elements = numbers[card::ELEMENTS];
    if !is_admitted(shape, elements) {
        return Err(Refusal::Shape);
    }
    let found = flatten(shape, coordinates);
    let Some(flat) = found else {
        return Err(Refusal::Coordinate);
    };
    let copies = numbers[card::COPIES];
    if (memory.len() as u64) < copies {
        return Err(Refusal::TooShort { needed: copies });
    }
    let end = copies as usize;
    let axis = place_cells(numbers, strides, flat, &mut memory[..end]);
    if axis < copies::AXES {
        return Err(Refusal::CopyOutside { flat, axis });
    }
    Ok(copies)
}

// The placement of one element of any card: one cell number per replica combination.
pub fn place(
    card: Card,
    shape: Tuple,
    coordinates: Tuple,
    memory: &mut [u32],
) -> Result<u64, Refusal>
    ensures { PlacementSays card shape coordinates memory.old memory.new result }
{
    let packed = card_packed::pack(card);
    let numbers = packed.numbers;
    let strides = packed.strides;
    place_packed(&numbers, &strides, shape, coordinates, memory)
}
