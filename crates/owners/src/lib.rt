// The cells of a lent owner table, cleared, and claimed a row at a time: per cell the flat index plus 1, or 0 for nobody.
// The table is lent as exactly the cells. Public, with a requires, only for the crates above, which place the rows. Between the calls for two elements
// nothing is kept but the table.
// A claim answers one word, the cells newly occupied, 0 exactly when an owner is met; x and the smallest shared cell are looked for only
// then.
#![tactic(auto)]

ghost use Rattle.std.specs.Prelude.{◌≡◌, ◌+◌, ◌<◌, length, replicate};
ghost use Rattle.claims.specs.Claims.{taken, occupied};
ghost use Rattle.claims.specs.Rows.{RowWithin, min_some, entry_met, cell_with, cell_met, row_written, RowClaim};
ghost use Rattle.owners.specs.Owners.{entry_limit, clash_of};

use answers::{Cell, Flat, Refusal};

// Every cell is nobody's. Public for the crates above.
pub fn clear(table: &mut [u32])
    ensures { table.new ≡ replicate (length table.old) 0 }
{
    table.fill(0);
}

// The smaller of two numbers, where 0 stands for none.
fn min_some(best: u64, found: u64) -> u64
    ensures { result ≡ min_some best found }
{
    if (found != 0) & ((best == 0) | (found < best)) {
        found
    } else {
        best
    }
}

// The smallest entry that a row meets, 0 where all its cells are nobody's.
fn entry_met(table: &[u32], row: &[u32]) -> u64
    requires { RowWithin row.now table.now }
    ensures { result ≡ entry_met table.now row.now }
{
    let mut best: u64 = 0;
    for cell in row {
        best = min_some(best, table[*cell as usize] as u64);
    }
    best
}

// A cell's number plus 1 where its entry is the wanted one, else 0.
fn cell_with(found: u64, wanted: u64, cell: Cell) -> u64
    requires { cell.0 < entry_limit }
    ensures { result ≡ cell_with found wanted cell.0 }
{
    if found == wanted { cell.0 + 1 } else { 0 }
}

// The smallest cell of a row that has this entry, plus 1, and 0 where none has.
fn cell_met(table: &[u32], row: &[u32], entry: u64) -> u64
    requires { RowWithin row.now table.now }
    ensures { result ≡ cell_met table.now entry row.now }
{
    let mut best: u64 = 0;
    for cell in row {
        let found = table[*cell as usize] as u64;
        best = min_some(best, cell_with(found, entry, Cell(*cell as u64)));
    }
    best
}

// How many cells an entry leaves free: one, where it is nobody's.
fn free(entry: u32) -> u64
    ensures { result + taken entry ≡ 1 }
{
    if entry == 0 { 1 } else { 0 }
}

// Writes an element's entry to each cell of its row, and says how many were nobody's.
fn write_row(table: &mut [u32], row: &[u32], flat: Flat) -> u64
    requires row_within { RowWithin row.now table.old }
    requires flat_bound { flat.0 + 1 < entry_limit }
    ensures table_after { table.new ≡ row_written (flat.0 + 1) row.now table.old }
    ensures table_value { result + occupied table.old ≡ occupied table.new }
{
    let entry = flat.0 as u32 + 1;
    let mut newly: u64 = 0;
    for cell in row {
        let cell = *cell as usize;
        newly += free(table[cell]);
        table[cell] = entry;
    }
    newly
}

// Claims a row for an element and says how many cells it occupies newly. Where a cell of the row has
// an owner already, it claims none. Public, with a requires, for the crates above.
pub fn claim_row(table: &mut [u32], row: &[u32], flat: Flat) -> u64
    requires row_within { RowWithin row.now table.old }
    requires row_nonzero { 0 < length row.now }
    requires flat_bound { flat.0 + 1 < entry_limit }
    ensures { RowClaim row.now flat.0 result table.old table.new }
{
    if entry_met(table, row) != 0 {
        return 0;
    }
    write_row(table, row, flat)
}

// Why an element's row can not be claimed: the smallest owner that it meets, and the smallest cell
// that it shares with that owner. Public, with a requires, for the crates above.
pub fn find_clash(table: &[u32], row: &[u32], flat: Flat) -> Refusal
    requires row_within { RowWithin row.now table.now }
    requires row_nonzero { 0 < entry_met table.now row.now }
    ensures { result ≡ clash_of table.now row.now flat }
{
    let entry = entry_met(table, row);
    let cell = cell_met(table, row, entry);
    Refusal::Shared {
        x: Flat(entry - 1),
        y: flat,
        cell: Cell(cell - 1),
    }
}
