// Two cards of one space and two lent tables, before a plan between them is looked at: the space, the tables, both verdicts, reuse marks, elements.
// Public for the crate above.
#![tactic(auto)]

ghost use Rattle.std.specs.Prelude.{◌≡◌, true, ◌≤◌, length};
ghost use Rattle.card.specs.Card.{cells};
ghost use Rattle.plans_judged.specs.Pair.{one_space};
ghost use Rattle.plans_pair.specs.Clauses.{BothPromise, OpenPromise};

use answers::Refusal;
use card::Card;
use plans_second::Matching;

// Both verdicts, the first judged first.
fn judge_both(
    one: Card,
    two: Card,
    first: &mut [u32],
    second: &mut [u32],
) -> Result<Matching, Refusal>
    ensures { BothPromise one two first.old second.old first.new second.new result }
{
    let approved = verdict::judge(one, first)?;
    plans_second::judge_other(one, two, approved.elements, second)
}

// The same, and a refusal empties the cells of both tables.
fn settle_both(
    one: Card,
    two: Card,
    size: u64,
    first: &mut [u32],
    second: &mut [u32],
) -> Result<Matching, Refusal>
    requires lengths_value { one_space one.lengths two.lengths ≡ true }
    requires size_value { (size ≡ cells one) × (size ≤ length first.old) × (size ≤ length second.old) }
    ensures { OpenPromise one two first.old second.old first.new second.new result }
{
    let pairing = judge_both(one, two, first, second);
    match pairing {
        Ok(matching) => Ok(matching),
        Err(refusal) => {
            plans_tables::empty_both(first, second, size);
            Err(refusal)
        }
    }
}

// Two cards before a plan is looked at: the space, the two tables, both verdicts, marks, elements.
pub fn open_pair(
    one: Card,
    two: Card,
    first: &mut [u32],
    second: &mut [u32],
) -> Result<Matching, Refusal>
    ensures { OpenPromise one two first.old second.old first.new second.new result }
{
    let lengths = one.lengths;
    let others = two.lengths;
    if !(plans_second::same_lengths(lengths, others) & admission::space_fits(lengths)) {
        return Err(Refusal::Space);
    }
    let cells = card_products::product(lengths, 8);
    if plans_tables::is_one_short(first.len() as u64, second.len() as u64, cells) {
        return Err(Refusal::TooShort { needed: cells });
    }
    settle_both(one, two, cells, first, second)
}
