// The words on a carrier's move plan: carry and plan. The buffers are lent for all lines, no more of each than a
// line asks for; what they are long is the program's own limit.
use desk_cards::cards;
use desk_lines::places;
use desk_lines::places::Kept;
use desk_lines_read::words::MOST_CARRIED;
use desk_lines_reply::lent::{fill, fill_plan};
use desk_lines_reply::reply::LineReply;
use desk_lines_reply::{lent, reply};

// The check of a plan that a line asks for, in tables as they are lent.
fn ask_carry(numbers: &Kept, plan: &[u64], first: &mut [u32], second: &mut [u32]) -> LineReply {
    fill(first, lent::TABLE);
    fill(second, lent::SECOND_TABLE);
    let one = cards::first(numbers);
    let two = cards::second(numbers);
    let checked = planning::check_plan(one, two, plan, first, second);
    reply::digests(answers::in_numbers(checked), first, second)
}

// carry CARD, CARD, count, so many plan numbers, length, length
pub fn carry(numbers: &Kept, first: &mut [u32], second: &mut [u32]) -> LineReply {
    let count = numbers[places::COUNT];
    if MOST_CARRIED < count {
        return reply::unknown();
    }
    let end = places::CARRIED + count as usize;
    let asked = numbers[end];
    if (first.len() as u64) < asked {
        return reply::unknown();
    }
    let other = numbers[end + 1];
    if (second.len() as u64) < other {
        return reply::unknown();
    }
    let one = asked as usize;
    let two = other as usize;
    let line: &[u64] = numbers;
    ask_carry(
        numbers,
        &line[places::CARRIED..end],
        &mut first[..one],
        &mut second[..two],
    )
}

// The plan that a line asks for, in memory as it is lent.
fn ask_plan(numbers: &Kept, plan: &mut [u64], first: &mut [u32], second: &mut [u32]) -> LineReply {
    fill_plan(plan);
    fill(first, lent::TABLE);
    fill(second, lent::SECOND_TABLE);
    let one = cards::first(numbers);
    let two = cards::second(numbers);
    let written = planning::write_plan(one, two, plan, first, second);
    reply::planned(answers::in_numbers(written), plan, first, second)
}

// plan CARD, CARD, plan length, length, length
pub fn plan(numbers: &Kept, plan: &mut [u64], first: &mut [u32], second: &mut [u32]) -> LineReply {
    let room = numbers[places::PLAN_LENT];
    if (plan.len() as u64) < room {
        return reply::unknown();
    }
    let asked = numbers[places::TABLES_LENT];
    if (first.len() as u64) < asked {
        return reply::unknown();
    }
    let other = numbers[places::TABLES_LENT + 1];
    if (second.len() as u64) < other {
        return reply::unknown();
    }
    let length = room as usize;
    let one = asked as usize;
    let two = other as usize;
    ask_plan(
        numbers,
        &mut plan[..length],
        &mut first[..one],
        &mut second[..two],
    )
}
