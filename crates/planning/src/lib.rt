// A carrier's plan checked between two cards, and a plain plan written.
#![tactic(auto)]

ghost use Rattle.plans_judged.specs.Endings.{CheckSays, PlanSays};

use answers::Refusal;
use card::Card;

// Checks a carrier's plan: its copies turn the first card's cells into the second's.
pub fn check_plan(
    one: Card,
    two: Card,
    plan: &[u64],
    first: &mut [u32],
    second: &mut [u32],
) -> Result<(), Refusal>
    ensures { CheckSays one two plan.now first.old second.old first.new second.new result }
{
    let opened = plans_pair::open_pair(one, two, first, second)?;
    let end = opened.cells as usize;
    plans_cells::check_cells(plan, &mut first[..end], &mut second[..end])
}

// Writes a plain plan: for each occupied cell of the second card, rising, a copy from the smallest cell of the
// first with that owner.
pub fn write_plan(
    one: Card,
    two: Card,
    plan: &mut [u64],
    first: &mut [u32],
    second: &mut [u32],
) -> Result<u64, Refusal>
    ensures { PlanSays one two plan.old first.old second.old plan.new first.new second.new result }
{
    let opened = plans_pair::open_pair(one, two, first, second)?;
    let end = opened.cells as usize;
    plans_cells::write_cells(opened.occupied, plan, &mut first[..end], &mut second[..end])
}
