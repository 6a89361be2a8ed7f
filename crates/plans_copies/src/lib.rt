// Plans over lent tables of one space: the first copy outside, the copies run, the first wrong cell and the first shared one.
// Each table is of exactly its cells; a plan's numbers are two a copy, from cell and then to cell. Public, with a requires, only for the crates
// above, which judge the two cards.
#![tactic(auto)]

ghost use Rattle.std.specs.Prelude.{◌≡◌, ltb, ◌&&◌, length};
ghost use Rattle.plans.specs.Plans.{carried, first_outside, first_wrong, first_shared};
ghost use Rattle.plans.specs.Passes.{sought, first_sought};

// Whether a copy names two cells of the space.
fn names_cells(from: u64, to: u64, cells: u64) -> bool
    ensures { result ≡ (ltb from cells && ltb to cells) }
{
    (from < cells) & (to < cells)
}

// The first copy that names a cell outside, or that an odd number left over is: its index plus 1, and 0
// where there is none.
pub fn first_outside(plan: &[u64], cells: u64) -> u64
    ensures { result ≡ first_outside cells plan.now }
{
    let copies = plan.len() / 2;
    for copy in 0..copies {
        if !names_cells(plan[2 * copy], plan[2 * copy + 1], cells) {
            return copy as u64 + 1;
        }
    }
    if plan.len() % 2 == 1 {
        return copies as u64 + 1;
    }
    0
}

// Runs the copies of a plan in order.
pub fn run_copies(plan: &[u64], table: &mut [u32])
    requires { first_outside (length table.old) plan.now ≡ 0 }
    ensures { table.new ≡ carried plan.now table.old }
{
    let copies = plan.len() / 2;
    for copy in 0..copies {
        let from = plan[2 * copy] as usize;
        let to = plan[2 * copy + 1] as usize;
        table[to] = table[from];
    }
}

// Whether a cell is looked for: where sharing is, it is occupied in both tables, and else it has an owner and
// holds something else.
fn is_sought(sharing: bool, holds: u32, owner: u32) -> bool
    ensures { result ≡ sought sharing holds owner }
{
    if sharing {
        (holds != 0) & (owner != 0)
    } else {
        (owner != 0) & (holds != owner)
    }
}

// The first cell that is looked for plus 1, and 0 where there is none.
fn first_sought(sharing: bool, held: &[u32], second: &[u32]) -> u64
    requires { length held.now ≡ length second.now }
    ensures { result ≡ first_sought sharing held.now second.now }
{
    for (cell, owner) in second.iter().enumerate() {
        if is_sought(sharing, held[cell], *owner) {
            return cell as u64 + 1;
        }
    }
    0
}

// The first wrong cell plus 1, and 0 where every occupied cell of the second table holds its owner.
pub fn first_wrong(held: &[u32], second: &[u32]) -> u64
    requires { length held.now ≡ length second.now }
    ensures { result ≡ first_wrong held.now second.now }
{
    first_sought(false, held, second)
}

// The smallest cell that is occupied in both tables, plus 1, and 0 where there is none.
pub fn first_shared(first: &[u32], second: &[u32]) -> u64
    requires { length first.now ≡ length second.now }
    ensures { result ≡ first_shared first.now second.now }
{
    first_sought(true, first, second)
}
