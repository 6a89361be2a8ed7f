// A carrier's plan checked, and a plain plan written, between two tables of owners that are each exactly the cells. Public for
// the crate above.
#![tactic(auto)]

ghost use Rattle.std.specs.Prelude.{◌≡◌, length};
ghost use Rattle.claims.specs.Claims.{occupied};
ghost use Rattle.plans.specs.Plans.{Matched};
ghost use Rattle.plans_judged.specs.Endings.{plan_checked, plan_written, memory_in};
ghost use Rattle.plans_cells.specs.Clauses.{Ends};

use answers::{Cell, Refusal};

// A plan checked between two tables of owners, each of exactly the cells. Public, with a requires, for the
// crate above, which opens both cards.
pub fn check_cells(plan: &[u64], first: &mut [u32], second: &mut [u32]) -> Result<(), Refusal>
    requires { length first.old ≡ length second.old }
    ensures { Ends (plan_checked (length first.old) plan.now first.old second.old) result first.new second.new }
{
    let copy = plans_copies::first_outside(plan, first.len() as u64);
    if copy != 0 {
        owners::clear(first);
        owners::clear(second);
        return Err(Refusal::Plan {
            copy,
            cell: Cell(0),
        });
    }
    plans_copies::run_copies(plan, first);
    let wrong = plans_copies::first_wrong(first, second);
    if wrong != 0 {
        return Err(Refusal::Plan {
            copy: 0,
            cell: Cell(wrong - 1),
        });
    }
    Ok(())
}

// A plain plan written between two tables of owners, each of exactly the cells, of which the second occupies so many. Public,
// with a requires, for the crate above, which opens both cards.
pub fn write_cells(
    targets: u64,
    plan: &mut [u64],
    first: &mut [u32],
    second: &mut [u32],
) -> Result<u64, Refusal>
    requires cases { Matched first.old second.old }
    requires first_len { (length first.old ≡ length second.old) × (targets ≡ occupied second.old) }
    ensures ends { Ends (plan_written (length first.old) (length plan.old) first.old second.old) result first.new second.new }
    ensures plan_after { plan.new ≡ memory_in (plan_written (length first.old) (length plan.old) first.old second.old) plan.old }
{
    let shared = plans_copies::first_shared(first, second);
    if shared != 0 {
        owners::clear(first);
        owners::clear(second);
        return Err(Refusal::Overlap {
            cell: Cell(shared - 1),
        });
    }
    let numbers = 2 * targets;
    if (plan.len() as u64) < numbers {
        owners::clear(first);
        owners::clear(second);
        return Err(Refusal::TooShort { needed: numbers });
    }
    let end = numbers as usize;
    plans_passes::put_plan(first, second, &mut plan[..end]);
    Ok(numbers)
}
