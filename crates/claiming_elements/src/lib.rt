// A run of a packed card's elements claimed element by element: the one that meets an owner is told.
#![tactic(auto)]

ghost use Rattle.std.specs.Prelude.{◌≡◌};
ghost use Rattle.card.specs.Card.{copies, cells};
ghost use Rattle.card.specs.Packed.{swizzle_of, card_of};
ghost use Rattle.claims.specs.Claims.{OwnedTable};
ghost use Rattle.claims.specs.Rows.{RowClaim};
ghost use Rattle.rules.specs.Copies.{copy_cells};
ghost use Rattle.judgement.specs.Judgement.{placed};
ghost use Rattle.claiming_runs.specs.Clauses.{Rows, Running};
ghost use Rattle.claiming_elements.specs.Clauses.{Begun, OneElement, RunClaim};

use answers::Flat;
use claiming_runs::Run;
use copies_runs::LevelAndM;
use swizzle::Swizzle;

// What claiming a run comes to: how many elements were claimed before one met an owner, and how many
// cells they occupied newly.
#[derive(Clone, Copy)]
pub struct Claimed {
    pub elements: u64,
    pub cells: u64,
}

// Claims the cell of an element that has one copy: 1, or 0 where the cell has an owner already.
fn claim_single(
    numbers: &[u64; 56],
    strides: &[i64; 24],
    by: Swizzle,
    place: LevelAndM,
    flat: Flat,
    table: &mut [u32],
) -> u64
    requires { Begun numbers.now strides.now place flat.0 table.old × (copies (card_of numbers.now strides.now) ≡ 1) × (by ≡ swizzle_of numbers.now) }
    ensures { RowClaim (copy_cells (card_of numbers.now strides.now) flat.0) flat.0 result table.old table.new }
{
    let cell = copies_runs::cell_at(by, place.level, place.m).0 as usize;
    if table[cell] != 0 {
        return 0;
    }
    table[cell] = flat.0 as u32 + 1;
    1
}

// Claims the one cell of the one element in the cleared table: how many cells are occupied then. Public, with
// a requires, for the crate above.
pub fn claim_alone(numbers: &[u64; 56], strides: &[i64; 24], table: &mut [u32]) -> u64
    requires { OneElement numbers.now strides.now table.old }
    ensures { OwnedTable (placed (card_of numbers.now strides.now)) 1 (cells (card_of numbers.now strides.now)) table.new result }
{
    let by = copies_runs::swizzle_of(numbers);
    let place = copies_runs::begin(numbers, strides, Flat(0));
    claim_single(numbers, strides, by, place, Flat(0), table)
}

// Claims the cells of one element: how many are newly occupied, none where a cell has an owner already.
fn claim_element(
    numbers: &[u64; 56],
    strides: &[i64; 24],
    by: Swizzle,
    place: LevelAndM,
    flat: Flat,
    levels: &[i64],
    ms: &[i64],
    row: &mut [u32],
    table: &mut [u32],
) -> u64
    requires begun { Begun numbers.now strides.now place flat.0 table.old × (by ≡ swizzle_of numbers.now) }
    requires rows { Rows (card_of numbers.now strides.now) levels.now ms.now row.old }
    ensures { RowClaim (copy_cells (card_of numbers.now strides.now) flat.0) flat.0 result table.old table.new }
{
    if row.len() == 1 {
        return claim_single(numbers, strides, by, place, flat, table);
    }
    copies_runs::fill(numbers, place.level, place.m, levels, ms, row);
    owners::claim_row(table, row, flat)
}

// Claims the cells of a run of elements, which begin at a place and go on by a step. Public, with a
// requires, for the crate above.
pub fn claim_run(
    numbers: &[u64; 56],
    strides: &[i64; 24],
    start: LevelAndM,
    step: LevelAndM,
    run: Run,
    levels: &[i64],
    ms: &[i64],
    row: &mut [u32],
    table: &mut [u32],
) -> Claimed
    requires running { Running numbers.now strides.now start step run table.old }
    requires rows { Rows (card_of numbers.now strides.now) levels.now ms.now row.old }
    ensures { RunClaim (card_of numbers.now strides.now) run result table.old table.new }
{
    let first = run.first.0;
    let length = run.length;
    let by = copies_runs::swizzle_of(numbers);
    let level_step = step.level;
    let m_step = step.m;
    let mut level = start.level;
    let mut m = start.m;
    let mut cells: u64 = 0;
    for done in 0..length {
        let place = LevelAndM { level, m };
        let newly = claim_element(
            numbers,
            strides,
            by,
            place,
            Flat(first + done),
            levels,
            ms,
            row,
            table,
        );
        if newly == 0 {
            return Claimed {
                elements: done,
                cells,
            };
        }
        cells += newly;
        level = level + level_step;
        m = m + m_step;
    }
    Claimed {
        elements: length,
        cells,
    }
}
