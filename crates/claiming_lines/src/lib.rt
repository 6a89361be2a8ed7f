// Lines of cells in an owner table, one copy of each of some elements that follow each other, claimed where every cell is nobody's.
// Else a line is left, with some of its cells written.
// A run is claimed copy by copy, each copy as a line of cells (`claiming_lines`): its cells go on by one step, so that a line without
// swizzle whose step is 1 is a stretch of the table, looked at in one loop and numbered in another, and any other line takes two additions
// and one look a cell. `Lined` says of every cell what became of it and knows no order: it is the cell of exactly one step, was nobody's and
// has that step's element, or it is none of the line's and is as it was. So one law (`lined_more`) serves both loops, and copies claimed in
// any order come to the owners of elements claimed in order (`partly_more`, `partly_all`).
#![tactic(auto)]

ghost use Rattle.std.specs.Prelude.{◌≡◌, true, ℕ, ◌+◌, ◌<◌, get_or};
ghost use Rattle.claiming_lines.specs.Lines.{Lined, line_cell, LineThere, StretchThere};

use answers::Flat;
use copies_runs::LevelAndM;
use swizzle::Swizzle;

// So many cells at most are claimed one by one.
const FEW: u64 = 4;

// Whether a stretch of the table is nobody's.
fn is_free(table: &[u32], from: usize, many: usize) -> bool
    requires { StretchThere 0 from many table.now }
    ensures { result ≡ true → (j : ℕ) → j < many → get_or table.now (from + j) 0 ≡ 0 }
{
    let mut free = true;
    for k in 0..many {
        free = free & (table[from + k] == 0);
    }
    free
}

// Numbers a free stretch of the table from the first element on.
fn number(table: &mut [u32], from: usize, many: usize, first: u64)
    requires { StretchThere first from many table.old × ((j : ℕ) → j < many → get_or table.old (from + j) 0 ≡ 0) }
    ensures { Lined (λ j. from + j) (λ j. first + j) many table.old table.new }
{
    let entry = first as u32 + 1;
    for k in 0..many {
        table[from + k] = entry + k as u32;
    }
}

// Claims a stretch of the table for elements from the first on.
fn claim_stretch(table: &mut [u32], from: usize, many: usize, first: u64) -> bool
    requires { StretchThere first from many table.old }
    ensures { result ≡ true → Lined (λ j. from + j) (λ j. first + j) many table.old table.new }
{
    if !is_free(table, from, many) {
        return false;
    }
    number(table, from, many, first);
    true
}

// Claims a line cell by cell.
fn claim_cells(
    by: Swizzle,
    start: LevelAndM,
    step: LevelAndM,
    first: u64,
    many: u64,
    table: &mut [u32],
) -> bool
    requires { LineThere by start step first many table.old }
    ensures { result ≡ true → Lined (line_cell by start step) (λ j. first + j) many table.old table.new }
{
    let level_step = step.level;
    let m_step = step.m;
    let mut level = start.level;
    let mut m = start.m;
    for done in 0..many {
        let cell = copies_runs::cell_at(by, level, m).0 as usize;
        if table[cell] != 0 {
            return false;
        }
        table[cell] = (first + done) as u32 + 1;
        level = level + level_step;
        m = m + m_step;
    }
    true
}

// Claims a line: as a stretch where its cells follow each other and are more than a few, which are
// quicker cell by cell. Public, with a requires, for the crate above.
pub fn claim_line(
    by: Swizzle,
    start: LevelAndM,
    step: LevelAndM,
    first: Flat,
    many: u64,
    table: &mut [u32],
) -> bool
    requires { LineThere by start step first.0 many table.old }
    ensures { result ≡ true → Lined (line_cell by start step) (λ j. first.0 + j) many table.old table.new }
{
    if (FEW < many) & (by.b == 0) & (step.level + step.m == 1) {
        return claim_stretch(
            table,
            (start.level + start.m) as usize,
            many as usize,
            first.0,
        );
    }
    claim_cells(by, start, step, first.0, many, table)
}
