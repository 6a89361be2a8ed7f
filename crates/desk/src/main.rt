// The program desk: questions in lines on standard input, answers in lines on standard output. It
// reads numbers, asks the library and prints what came back. Each subject has a module of its own; here are those
// that lend owner tables.
#![tactic(auto)]

ghost use Rattle.std.specs.Prelude.{◌≡◌, OnErr};

mod carrying;
mod encodings;
mod tables;

use desk_cards::{books, notations, placements};
use desk_lines::places::Kept;
use desk_lines_read::words;
use desk_lines_read::words::Word;
use desk_lines_reply::reply::LineReply;
use desk_lines_reply::{print, reply};
use desk_plain::{fragments, masks, swizzles};
use std::io::{Read, Result, Write};
use text::input::Input;
use text::{input, output};

// Answers a question that has all its numbers.
fn ask(
    word: Word,
    numbers: &Kept,
    lent: &mut [u32],
    second: &mut [u32],
    plan: &mut [u64],
) -> LineReply {
    // A match, and no table of functions: each question is lent something else.
    match word {
        Word::Swizzle => swizzles::swizzle(numbers),
        Word::Mode => swizzles::mode(numbers),
        Word::Bank => swizzles::bank(numbers),
        Word::Fragment => fragments::fragment(numbers),
        Word::Holder => fragments::holder(numbers),
        Word::Fields => masks::fields(numbers),
        Word::Descriptor => masks::descriptor(numbers),
        Word::Mask => masks::mask(numbers),
        Word::Place => placements::place(numbers),
        Word::Verdict => tables::verdict(numbers, lent),
        Word::Owner => tables::owner(numbers, lent),
        Word::Stretch => tables::stretch(numbers, lent),
        Word::Write => notations::write(numbers),
        Word::Canonical => encodings::canonical(numbers, lent),
        Word::Block => books::block(numbers),
        Word::Carry => carrying::carry(numbers, lent, second),
        Word::Plan => carrying::plan(numbers, plan, lent, second),
        Word::Mma => fragments::mma(numbers),
        Word::MmaHolder => fragments::mma_holder(numbers),
        Word::MmaLayout => notations::mma_layout(numbers),
    }
}

// Answers a line.
fn answer(
    line: &[u8],
    numbers: &mut Kept,
    lent: &mut [u32],
    second: &mut [u32],
    plan: &mut [u64],
) -> LineReply {
    if let Some(text) = words::text_to_read(line) {
        return notations::read(text);
    }
    if let Some(digits) = words::page_to_read(line) {
        return books::page(digits);
    }
    match words::question(line, numbers) {
        Some(word) => ask(word, numbers, lent, second, plan),
        None => reply::unknown(),
    }
}

// The bytes of a line, unless it is longer than its buffer.
fn held(line: &[u8; 4096], length: usize) -> Option<&[u8]> {
    if line.len() < length {
        return None;
    }
    Some(&line[..length])
}

// Writes out what is finished where the next step in the input is a read, which may wait.
fn before_waiting<W: Write>(
    to: &mut W,
    out: &[u8; 65536],
    at: usize,
    input: Input,
) -> Result<usize> {
    if input::is_used_up(input) {
        return output::write_out(to, out, at);
    }
    Ok(at)
}

// The answer to the line once it is whole, and the next place. An empty line gets none.
fn answer_whole<W: Write>(
    to: &mut W,
    out: &mut [u8; 65536],
    at: usize,
    line: &[u8; 4096],
    input: Input,
    numbers: &mut Kept,
    lent: &mut [u32],
    second: &mut [u32],
    plan: &mut [u64],
) -> Result<usize>
    ensures { OnErr result (out.new ≡ out.old) }
{
    if input.whole & (0 < input.held) {
        let reply = match held(line, input.held) {
            Some(whole) => answer(whole, numbers, lent, second, plan),
            None => reply::unknown(),
        };
        return print::put(to, out, at, reply);
    }
    Ok(at)
}

// The most entries that the program lends to a table, and the most numbers to a plan: its own limits, not the
// card's.
const MOST_LENT: usize = 16384;

const MOST_PLAN: usize = 32768;

// Answers every line of the input. A proved loop has to end, so its turns are counted, up to a
// number that no run uses up.
fn answer_all<R: Read, W: Write>(from: &mut R, to: &mut W, out: &mut [u8; 65536]) -> Result<()> {
    let mut part = [0u8; 65536];
    let mut line = [0u8; 4096];
    let mut numbers = [0u64; 375];
    let mut lent = [0u32; MOST_LENT];
    let mut second = [0u32; MOST_LENT];
    let mut plan = [0u64; MOST_PLAN];
    let mut input = input::start();
    let mut at = 0;
    for _ in 0..u64::MAX {
        at = before_waiting(to, out, at, input)?;
        input = input::advance(from, &mut part, &mut line, input)?;
        at = answer_whole(
            to,
            out,
            at,
            &line,
            input,
            &mut numbers,
            &mut lent,
            &mut second,
            &mut plan,
        )?;
        if input.ended {
            break;
        }
    }
    output::write_out(to, out, at)?;
    Ok(())
}

fn main(rt: HostRuntime) -> Result<()> {
    let mut out = [0u8; 65536];
    answer_all(&mut rt.stdin(), &mut rt.stdout(), &mut out)
}
