// Two lent tables of one space, beside each other: whether both have room for the cells, and the cells of both emptied.
// Public for the crate above.
#![tactic(auto)]

ghost use Rattle.std.specs.Prelude.{◌≡◌, ◌||◌, ◌++◌, ◌≤◌, ltb, length, drop, replicate};

// Whether one of two tables of these lengths has no room for so many cells.
pub fn is_one_short(first: u64, second: u64, cells: u64) -> bool
    ensures { result ≡ (ltb first cells || ltb second cells) }
{
    (first < cells) | (second < cells)
}

// Empties the cells of a table; the entries past them stay.
fn empty_cells(table: &mut [u32], cells: u64)
    requires { cells ≤ length table.old }
    ensures { table.new ≡ replicate cells 0 ++ drop cells table.old }
{
    let end = cells as usize;
    owners::clear(&mut table[..end]);
}

// Empties the cells of both tables; the entries past them stay. Public, with a requires, for the crate above, which asks for
// the room first.
pub fn empty_both(first: &mut [u32], second: &mut [u32], cells: u64)
    requires { (cells ≤ length first.old) × (cells ≤ length second.old) }
    ensures first_after { first.new ≡ replicate cells 0 ++ drop cells first.old }
    ensures second_after { second.new ≡ replicate cells 0 ++ drop cells second.old }
{
    empty_cells(first, cells);
    empty_cells(second, cells);
}
