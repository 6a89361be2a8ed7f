// The plain plan between two lent tables of one space, written in its own memory in three passes.
// Each table is of exactly its cells; a plan's numbers are two a copy, from cell and then to cell. Public, with a requires, only for the crate
// above, which judges the two cards.
#![tactic(auto)]

ghost use Rattle.std.specs.Prelude.{◌≡◌, ◌+◌, ◌*◌, ◌≤◌, length};
ghost use Rattle.claims.specs.Claims.{taken, occupied};
ghost use Rattle.plans.specs.Plans.{planned, Matched};
ghost use Rattle.plans.specs.Passes.{entered, entered_from, sourced, sourced_from, aimed, aimed_from, Fits};

// Enters a cell for its owner, at the owner's odd place.
fn enter_cell(plan: &mut [u64], owner: u32, cell: u64)
    requires { 2 * owner ≤ length plan.old }
    ensures { plan.new ≡ entered owner cell plan.old }
{
    if owner != 0 {
        plan[2 * owner as usize - 1] = cell;
    }
}

// Enters for each owner its smallest cell: the cells fall.
fn enter_cells(first: &[u32], plan: &mut [u64])
    requires { Fits first.now plan.old }
    ensures { plan.new ≡ entered_from first.now 0 plan.old }
{
    for cell in (0..first.len()).rev() {
        enter_cell(plan, first[cell], cell as u64);
    }
}

// Writes where a copy is from, the cell entered for the owner, and gives the index of the next copy.
fn put_source(plan: &mut [u64], owner: u32, copy: usize) -> usize
    requires owner_in_bounds { 2 * owner ≤ length plan.old }
    requires owner_in_bounds_2 { 2 * (copy + taken owner) ≤ length plan.old }
    ensures plan_after { plan.new ≡ sourced owner copy plan.old }
    ensures value { result ≡ copy + taken owner }
{
    if owner == 0 {
        return copy;
    }
    plan[2 * copy] = plan[2 * owner as usize - 1];
    copy + 1
}

// Writes where each copy is from, at the even places.
fn put_sources(second: &[u32], plan: &mut [u64])
    requires fits { Fits second.now plan.old }
    requires second_in_bounds { 2 * occupied second.now ≤ length plan.old }
    ensures { plan.new ≡ sourced_from second.now 0 plan.old }
{
    let mut copy = 0;
    for owner in second {
        copy = put_source(plan, *owner, copy);
    }
}

// Writes where a copy goes, and gives the index of the next copy.
fn put_target(plan: &mut [u64], owner: u32, copy: usize, cell: u64) -> usize
    requires { 2 * (copy + taken owner) ≤ length plan.old }
    ensures plan_after { plan.new ≡ aimed owner copy cell plan.old }
    ensures value { result ≡ copy + taken owner }
{
    if owner == 0 {
        return copy;
    }
    plan[2 * copy + 1] = cell;
    copy + 1
}

// Writes where each copy goes, at the odd places.
fn put_targets(second: &[u32], plan: &mut [u64])
    requires { 2 * occupied second.now ≤ length plan.old }
    ensures { plan.new ≡ aimed_from second.now 0 0 plan.old }
{
    let mut copy = 0;
    for (cell, owner) in second.iter().enumerate() {
        copy = put_target(plan, *owner, copy, cell as u64);
    }
}

// Writes the plain plan in three passes and no other memory: each owner's smallest cell is entered at an odd
// place, the even places are taken from these, and then the odd ones get their own.
pub fn put_plan(first: &[u32], second: &[u32], plan: &mut [u64])
    requires cases { Matched first.now second.now }
    requires plan_len { length plan.old ≡ 2 * occupied second.now }
    ensures { plan.new ≡ planned first.now second.now }
{
    enter_cells(first, plan);
    put_sources(second, plan);
    put_targets(second, plan);
}
