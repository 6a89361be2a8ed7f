// The word canonical: the verdict on a canonical shared-memory layout, with LBO and SBO as a descriptor has them.
use canonical::Canonical;
use desk_lines::places;
use desk_lines::places::Kept;
use desk_lines_reply::lent::{TABLE, fill};
use desk_lines_reply::reply;
use desk_lines_reply::reply::LineReply;

// The verdict that a line asks for, in entries as they are lent.
fn ask_canonical(numbers: &Kept, lent: &mut [u32]) -> LineReply {
    fill(lent, TABLE);
    let asked = Canonical {
        major: numbers[0],
        mode: numbers[1],
        bits: numbers[2],
        m: numbers[3],
        k: numbers[4],
        lbo: numbers[5],
        sbo: numbers[6],
        length: numbers[7],
    };
    let reported = encoding::judge(asked, lent);
    let answer = encoding::reported_numbers(reported);
    reply::encoded(answer, reported.lbo, reported.sbo, lent)
}

// canonical major-ness mode bits m k LBO SBO length-of-m length
pub fn canonical(numbers: &Kept, lent: &mut [u32]) -> LineReply {
    let asked = numbers[places::CANONICAL_LENT];
    if (lent.len() as u64) < asked {
        return reply::unknown();
    }
    let length = asked as usize;
    ask_canonical(numbers, &mut lent[..length])
}
