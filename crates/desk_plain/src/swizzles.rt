// The words of the subject swizzle, and that of the banks where a swizzled address lies.
use desk_lines::places::Kept;
use desk_lines_reply::reply;
use desk_lines_reply::reply::LineReply;

// swizzle M B S address
pub fn swizzle(numbers: &Kept) -> LineReply {
    let swizzled = swizzle::swizzle_address(numbers[0], numbers[1], numbers[2], numbers[3]);
    reply::plain(answers::in_numbers(swizzled))
}

// mode bits mode
pub fn mode(numbers: &Kept) -> LineReply {
    let chosen = swizzle::swizzle_of_mode(numbers[0], numbers[1]);
    reply::plain(answers::in_numbers(chosen))
}

// bank bits address
pub fn bank(numbers: &Kept) -> LineReply {
    let banked = banks::bank_of(numbers[0], numbers[1]);
    reply::plain(answers::in_numbers(banked))
}
