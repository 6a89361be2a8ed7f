// Two lines as they are typed, eight lengths and a notation, and the verdict on them.
#![tactic(auto)]

ghost use Rattle.std.specs.Prelude.{◌≡◌};
ghost use Rattle.typed_judged.specs.Judge.{card_for, TypedOutcome, JudgePromise};

use answers::Refusal;
use card::Card;
use judgement::Approved;
use notation::{Layout, Reading};
use swizzle::Swizzle;
use typed_lengths::LineOfLengths;

// The card of a layout in a space: no swizzle.
fn card_for(lengths: [u64; 8], layout: Layout) -> Card
    ensures { result ≡ card_for lengths layout }
{
    let shard = layout.shard;
    let marks = layout.marks;
    let replica = layout.replica;
    let offset = layout.offset;
    Card {
        shard,
        marks,
        replica,
        offset,
        lengths,
        swizzle: Swizzle { m: 0, b: 0, s: 3 },
    }
}

// The verdict on what the two lines are read as: the first is judged first.
fn judge_read(line: LineOfLengths, reading: Reading, table: &mut [u32]) -> Result<Approved, Refusal>
    ensures { TypedOutcome line reading table.old table.new result }
{
    if !line.correct {
        return Err(Refusal::Space);
    }
    reading.answer?;
    let lengths = line.lengths;
    let layout = reading.layout;
    verdict::judge(card_for(lengths, layout), table)
}

// The verdict on two lines.
pub fn judge_lines(first: &[u8], second: &[u8], table: &mut [u32]) -> Result<Approved, Refusal>
    ensures { JudgePromise first.now second.now table.old table.new result }
{
    let line = typed_lengths::read(first);
    let reading = reading::read(second);
    judge_read(line, reading, table)
}
