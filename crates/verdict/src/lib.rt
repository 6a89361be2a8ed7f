// The verdict on a layout card, and the owner of a cell.
// The verdict on an admitted card is a function of its own, `judge_admitted`, which both questions call after their own checks, so that the
// owner does not admit its card twice.
#![tactic(auto)]

ghost use Rattle.std.specs.Prelude.{◌≡◌, ◌<◌, length, Ok};
ghost use Rattle.answers.specs.Refusals.{no_refusal};
ghost use Rattle.card.specs.Card.{cells};
ghost use Rattle.card.specs.Packed.{card_of, Whole};
ghost use Rattle.idle.specs.Admission.{full_admission};
ghost use Rattle.judgement.specs.Plain.{VerdictSays, OwnerSays};
ghost use Rattle.judgement.specs.Verdict.{VerdictPromise, OwnerPromise};
ghost use Rattle.verdict.specs.Clauses.{ReadAt};

use answers::{Cell, Refusal};
use card::Card;
use judgement::Approved;
use rules::Spot;

// The verdict on an admitted card in a table of exactly its cells, with one row for the copies of an
// element.
fn judge_cells(
    numbers: &[u64; 56],
    strides: &[i64; 24],
    table: &mut [u32],
) -> Result<Approved, Refusal>
    requires whole { Whole numbers.now strides.now × (full_admission (card_of numbers.now strides.now) ≡ no_refusal) }
    requires table_len { length table.old ≡ cells (card_of numbers.now strides.now) }
    ensures { VerdictPromise (card_of numbers.now strides.now) table.old table.new result }
{
    let copies = numbers[card::COPIES] as usize;
    let elements = numbers[card::ELEMENTS];
    let mut row = [0u32; card::MOST_COPIES as usize];
    claiming::judge_passes(numbers, strides, elements, &mut row[..copies], table)
}

// The verdict on an admitted card: room for its cells, then the owners in them.
fn judge_admitted(
    numbers: &[u64; 56],
    strides: &[i64; 24],
    table: &mut [u32],
) -> Result<Approved, Refusal>
    requires { Whole numbers.now strides.now × (full_admission (card_of numbers.now strides.now) ≡ no_refusal) }
    ensures { VerdictPromise (card_of numbers.now strides.now) table.old table.new result }
{
    let cells = numbers[card::CELLS];
    if (table.len() as u64) < cells {
        return Err(Refusal::TooShort { needed: cells });
    }
    let end = cells as usize;
    judge_cells(numbers, strides, &mut table[..end])
}

// The verdict on a packed card: the card's own checks, then the table's. Public, with a requires, for the
// crate above, which packs a card from plain numbers.
pub fn judge_packed(
    numbers: &[u64; 56],
    strides: &[i64; 24],
    table: &mut [u32],
) -> Result<Approved, Refusal>
    requires { Whole numbers.now strides.now }
    ensures { VerdictPromise (card_of numbers.now strides.now) table.old table.new result }
{
    idle_search::admit_packed(numbers, strides)?;
    judge_admitted(numbers, strides, table)
}

// The verdict on any card.
pub fn judge(card: Card, table: &mut [u32]) -> Result<Approved, Refusal>
    ensures { VerdictSays card table.old table.new result }
{
    let packed = card_packed::pack(card);
    let numbers = packed.numbers;
    let strides = packed.strides;
    judge_packed(&numbers, &strides, table)
}

// The owner of a cell of an admitted card: the verdict, and then one entry is read.
fn owner_at(
    numbers: &[u64; 56],
    strides: &[i64; 24],
    cell: Cell,
    table: &mut [u32],
) -> Result<u64, Refusal>
    requires whole { Whole numbers.now strides.now × (full_admission (card_of numbers.now strides.now) ≡ no_refusal) }
    requires cell_bound { cell.0 < cells (card_of numbers.now strides.now) }
    ensures { ReadAt (card_of numbers.now strides.now) cell.0 table.old table.new result }
{
    judge_admitted(numbers, strides, table)?;
    Ok(table[cell.0 as usize] as u64)
}

// The owner of a cell of a packed card: after the card's own checks the coordinates are judged.
fn owner_packed(
    numbers: &[u64; 56],
    strides: &[i64; 24],
    coordinates: &[u64; 8],
    table: &mut [u32],
) -> Result<u64, Refusal>
    requires { Whole numbers.now strides.now × (length coordinates.now ≡ 8) }
    ensures { OwnerPromise (card_of numbers.now strides.now) coordinates.now table.old table.new result }
{
    idle_search::admit_packed(numbers, strides)?;
    let spot = copies::spot_at(numbers, coordinates);
    match spot {
        Spot::Inside(cell) => owner_at(numbers, strides, cell, table),
        Spot::Outside(axis) => Err(Refusal::CellOutside { axis }),
    }
}

// The owner of the cell that eight coordinates name, for any card.
pub fn owner_of(card: Card, coordinates: [u64; 8], table: &mut [u32]) -> Result<u64, Refusal>
    ensures { OwnerSays card coordinates table.old table.new result }
{
    let packed = card_packed::pack(card);
    let numbers = packed.numbers;
    let strides = packed.strides;
    owner_packed(&numbers, &strides, &coordinates, table)
}
