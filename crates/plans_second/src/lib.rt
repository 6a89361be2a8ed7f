// What the second card is asked beside the first, before a plan is looked at: the same lengths, its verdict, no reuse mark on either, as many elements.
// Public for the crates above.
#![tactic(auto)]

ghost use Rattle.std.specs.Prelude.{◌≡◌, take};
ghost use Rattle.card.specs.Lists.{same};
ghost use Rattle.plans_judged.specs.Pair.{any_mark, marked};
ghost use Rattle.plans_second.specs.Clauses.{paired_by, OtherPromise};

use answers::Refusal;
use card::Card;
use judgement::Approved;

// Two cards before a plan is looked at: the cells of their space and how many of them the second occupies, or a refusal.
#[derive(Clone, Copy)]
pub struct Matching {
    pub cells: u64,
    pub occupied: u64,
}

// Whether two cards have the same lengths.
pub fn same_lengths(one: [u64; 8], two: [u64; 8]) -> bool
    ensures { result ≡ same one two }
{
    one == two
}

// Whether one of the iters below a count carries a mark.
fn any_mark(marks: [bool; 8], count: u64) -> bool
    ensures { result ≡ any_mark (take count marks) }
{
    marks[..count.min(8) as usize].contains(&true)
}

// Whether a card carries a reuse mark.
fn is_marked(card: Card) -> bool
    ensures { result ≡ marked card }
{
    let marks = card.marks;
    let shard = card.shard;
    any_mark(marks, shard.count)
}

// The second verdict, where the first approved so many elements: then marks and elements are looked at.
fn pair_up(
    verdict: Result<Approved, Refusal>,
    marks: bool,
    elements: u64,
) -> Result<Matching, Refusal>
    ensures { result ≡ paired_by verdict marks elements }
{
    let approved = verdict?;
    if marks {
        return Err(Refusal::Limits);
    }
    if elements != approved.elements {
        return Err(Refusal::Shape);
    }
    Ok(Matching {
        cells: approved.cells,
        occupied: approved.occupied,
    })
}

// The second card's verdict, where the first approved so many elements.
pub fn judge_other(
    one: Card,
    two: Card,
    elements: u64,
    second: &mut [u32],
) -> Result<Matching, Refusal>
    ensures { OtherPromise one two elements second.old second.new result }
{
    let verdict = verdict::judge(two, second);
    let marks = is_marked(one) | is_marked(two);
    pair_up(verdict, marks, elements)
}
