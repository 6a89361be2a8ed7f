// What a packed card comes to in a table of exactly its cells: what lies outside the space, and else who claims which cell. Copy by copy
// is quick, and where that fails the elements are claimed anew, in order.
// The quick pass may fail for any reason, and then the table is cleared and the elements are claimed in order: where a line is not free
// nothing is said of why. So there is no law that a clash must be there, the first clash, its two elements and its cell are found by
// `claiming_in_order` alone, and whatever the quick pass leaves out, cards with marks and those of one element with several copies, goes
// that way from the start. A card that is refused 8 pays for both.
#![tactic(auto)]

ghost use Rattle.std.specs.Prelude.{◌≡◌, length, replicate};
ghost use Rattle.card.specs.Card.{cells};
ghost use Rattle.card.specs.Packed.{card_of};
ghost use Rattle.judgement.specs.Judgement.{AllInside};
ghost use Rattle.judgement.specs.Verdict.{VerdictPromise};
ghost use Rattle.claiming_runs.specs.Clauses.{Rows};
ghost use Rattle.claiming_in_order.specs.Clauses.{Pass};

use answers::Refusal;
use judgement::Approved;

// The runs copy by copy, and only where a cell has an owner already all anew, element by element.
fn claim_twice(
    numbers: &[u64; 56],
    strides: &[i64; 24],
    elements: u64,
    levels: &[i64],
    ms: &[i64],
    row: &mut [u32],
    table: &mut [u32],
) -> Result<Approved, Refusal>
    requires pass { Pass numbers.now strides.now elements row.old × Rows (card_of numbers.now strides.now) levels.now ms.now row.old }
    requires all_inside { AllInside (card_of numbers.now strides.now) × (table.old ≡ replicate (cells (card_of numbers.now strides.now)) 0) }
    ensures { VerdictPromise (card_of numbers.now strides.now) table.old table.new result }
{
    let occupied = claiming_copies::claim_quickly(numbers, strides, elements, levels, ms, table);
    if occupied != 0 {
        return Ok(Approved {
            elements,
            occupied,
            cells: table.len() as u64,
        });
    }
    claiming_in_order::claim_runs(numbers, strides, elements, levels, ms, row, table)
}

// The pass over the elements: what each copy adds is made once, then the runs are claimed. One copy of one element
// is claimed at once.
fn claim_all(
    numbers: &[u64; 56],
    strides: &[i64; 24],
    elements: u64,
    row: &mut [u32],
    table: &mut [u32],
) -> Result<Approved, Refusal>
    requires pass { Pass numbers.now strides.now elements row.old }
    requires all_inside { AllInside (card_of numbers.now strides.now) × (table.old ≡ replicate (cells (card_of numbers.now strides.now)) 0) }
    ensures { VerdictPromise (card_of numbers.now strides.now) table.old table.new result }
{
    let copies = row.len();
    if (elements == 1) & (copies == 1) {
        let occupied = claiming_elements::claim_alone(numbers, strides, table);
        return Ok(Approved {
            elements,
            occupied,
            cells: table.len() as u64,
        });
    }
    let mut levels = [0i64; card::MOST_COPIES as usize];
    let mut ms = [0i64; card::MOST_COPIES as usize];
    copies_runs::put_copies(numbers, strides, &mut levels[..copies], &mut ms[..copies]);
    claim_twice(
        numbers,
        strides,
        elements,
        &levels[..copies],
        &ms[..copies],
        row,
        table,
    )
}

// What lies outside, and then the pass, in a table of exactly the cells. Public, with a requires, for the crate above.
pub fn judge_passes(
    numbers: &[u64; 56],
    strides: &[i64; 24],
    elements: u64,
    row: &mut [u32],
    table: &mut [u32],
) -> Result<Approved, Refusal>
    requires pass { Pass numbers.now strides.now elements row.old }
    requires table_len { length table.old ≡ cells (card_of numbers.now strides.now) }
    ensures { VerdictPromise (card_of numbers.now strides.now) table.old table.new result }
{
    owners::clear(table);
    let search = outside::find_outside(numbers, strides);
    if let Some(found) = search {
        return Err(Refusal::CopyOutside {
            flat: found.flat,
            axis: found.axis,
        });
    }
    claim_all(numbers, strides, elements, row, table)
}
