// A packed card's runs claimed in the order of their elements, each element by element: the first that meets an owner is refused.
#![tactic(auto)]

ghost use Rattle.std.specs.Prelude.{◌≡◌, false, length, replicate};
ghost use Rattle.card.specs.Card.{cells};
ghost use Rattle.card.specs.Packed.{card_of, Admits};
ghost use Rattle.rules.specs.Copies.{copy_cells};
ghost use Rattle.rules.specs.Reuse.{Unmarked};
ghost use Rattle.owners.specs.Owners.{clash_of};
ghost use Rattle.judgement.specs.Judgement.{AllInside};
ghost use Rattle.judgement.specs.Verdict.{VerdictPromise};
ghost use Rattle.claiming_runs.specs.Clauses.{Rows, RunsBy};
ghost use Rattle.claiming_in_order.specs.Clauses.{Pass, Met};

use answers::{Flat, Refusal};
use claiming_runs::Run;
use judgement::Approved;

// Why an element can not be claimed; the cells are all nobody's after it.
fn refuse_clash(
    numbers: &[u64; 56],
    strides: &[i64; 24],
    flat: Flat,
    row: &mut [u32],
    table: &mut [u32],
) -> Refusal
    requires { Met numbers.now strides.now flat.0 row.old table.old }
    ensures value { result ≡ clash_of table.old (copy_cells (card_of numbers.now strides.now) flat.0) flat }
    ensures table_after { table.new ≡ replicate (length table.old) 0 }
{
    copies::place_row(numbers, strides, flat, row);
    let refusal = owners::find_clash(table, row, flat);
    owners::clear(table);
    refusal
}

// How many elements are claimed in one run: with marks one, since the next may follow.
fn run_length(numbers: &[u64; 56], strides: &[i64; 24], marked: bool) -> u64
    requires { Admits numbers.now strides.now × (marked ≡ false → Unmarked (card_of numbers.now strides.now)) }
    ensures { RunsBy (card_of numbers.now strides.now) result }
{
    if marked {
        1
    } else {
        copies_runs::run_length(numbers)
    }
}

// Claims the cells of every run whose elements lead, in the cleared table, which has exactly the cells.
// The first element that meets an owner is refused. Public, with a requires, for the crate above.
pub fn claim_runs(
    numbers: &[u64; 56],
    strides: &[i64; 24],
    elements: u64,
    levels: &[i64],
    ms: &[i64],
    row: &mut [u32],
    table: &mut [u32],
) -> Result<Approved, Refusal>
    requires pass { Pass numbers.now strides.now elements row.old × Rows (card_of numbers.now strides.now) levels.now ms.now row.old }
    requires all_inside { AllInside (card_of numbers.now strides.now) × (table.old ≡ replicate (cells (card_of numbers.now strides.now)) 0) }
    ensures { VerdictPromise (card_of numbers.now strides.now) table.old table.new result }
{
    let marked = reuse::has_marks(numbers);
    let length = run_length(numbers, strides, marked);
    let step = copies_runs::added(numbers, strides, card::SHARD, 1);
    let mut occupied: u64 = 0;
    let mut flat: u64 = 0;
    // A while: a turn goes on by a run, not by one.
    while flat < elements {
        let first = Flat(flat);
        flat += length;
        if reuse::leads(numbers, marked, first) {
            let start = copies_runs::begin(numbers, strides, first);
            let run = Run { first, length };
            let claimed = claiming_elements::claim_run(
                numbers, strides, start, step, run, levels, ms, row, table,
            );
            if claimed.elements < length {
                let met = Flat(first.0 + claimed.elements);
                return Err(refuse_clash(numbers, strides, met, row, table));
            }
            occupied += claimed.cells;
        }
    }
    Ok(Approved {
        elements,
        occupied,
        cells: table.len() as u64,
    })
}
