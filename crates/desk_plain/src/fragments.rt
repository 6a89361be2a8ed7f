// The words of the subject fragment, and of its further kinds.
use desk_lines::places::Kept;
use desk_lines_reply::reply;
use desk_lines_reply::reply::LineReply;

// fragment kind lane register
pub fn fragment(numbers: &Kept) -> LineReply {
    let held = fragment::held_by(numbers[0], numbers[1], numbers[2]);
    reply::plain(answers::in_numbers(held))
}

// holder kind computation row column
pub fn holder(numbers: &Kept) -> LineReply {
    let holder = fragment::holder_of(numbers[0], numbers[1], numbers[2], numbers[3]);
    reply::plain(answers::in_numbers(holder))
}

// mma kind warp lane register
pub fn mma(numbers: &Kept) -> LineReply {
    let held = mma::held_by(numbers[0], numbers[1], numbers[2], numbers[3]);
    reply::plain(answers::in_numbers(held))
}

// mma-holder kind matrix row column
pub fn mma_holder(numbers: &Kept) -> LineReply {
    let holder = mma::holder_of(numbers[0], numbers[1], numbers[2], numbers[3]);
    reply::plain(answers::in_numbers(holder))
}
