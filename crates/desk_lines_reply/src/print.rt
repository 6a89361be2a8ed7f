// Replies as text.
ghost use Rattle.std.specs.Prelude.{◌≡◌, OnErr};

use crate::reply::{Form, LineReply};
use answers::Numbers;
use desk_lines::numbers;
use desk_lines::places::may_be_below;
use std::io::{Result, Write};
use std::num::wrapping_sub_u64;
use text::output;

// The number and the details of an answer.
fn details(out: &mut [u8; 65536], at: usize, answer: Numbers) -> usize {
    let number = output::decimal(out, at, answer.number);
    let a = output::spaced(out, number, answer.a);
    let b = output::spaced(out, a, answer.b);
    output::spaced(out, b, answer.c)
}

// From here on a value is below zero where it may be.
const HALF: u64 = 9223372036854775808;

// A space and a value, which may be below zero or not.
fn value(out: &mut [u8; 65536], at: usize, n: u64, signed: bool) -> usize {
    let space = output::byte(out, at, b' ');
    if signed & (HALF <= n) {
        let minus = output::byte(out, space, b'-');
        return output::decimal(out, minus, wrapping_sub_u64(0, n));
    }
    output::decimal(out, space, n)
}

// A bar, and each of the values after a space. No count is above 80.
fn values(out: &mut [u8; 65536], at: usize, count: usize, of: &[u64; 80], signed: bool) -> usize {
    let mut place = output::text(out, at, b" |");
    for i in 0..count {
        place = value(out, place, of[i % 80], signed & may_be_below(i, 1));
    }
    place
}

// Byte i of the text behind the first value.
fn text_byte(of: &[u64; 80], i: usize) -> u8 {
    numbers::byte(of[(1 + i / 8) % 80] >> (i % 8 * 8))
}

// A text of so many bytes.
fn bytes(out: &mut [u8; 65536], at: usize, count: usize, of: &[u64; 80]) -> usize {
    let mut place = at;
    for i in 0..count {
        place = output::byte(out, place, text_byte(of, i));
    }
    place
}

// An answer with nothing after it.
fn plain(out: &mut [u8; 65536], at: usize, reply: LineReply) -> usize {
    let place = details(out, at, reply.answer);
    output::byte(out, place, b'\n')
}

// An answer with values after it.
fn barred(out: &mut [u8; 65536], at: usize, reply: LineReply, signed: bool) -> usize {
    let of = reply.values;
    let mut place = details(out, at, reply.answer);
    place = values(out, place, reply.count, &of, signed);
    output::byte(out, place, b'\n')
}

// An answer with values and a text after it.
fn written(out: &mut [u8; 65536], at: usize, reply: LineReply) -> usize {
    let of = reply.values;
    let mut place = details(out, at, reply.answer);
    place = values(out, place, reply.count, &of, false);
    place = output::byte(out, place, b' ');
    place = bytes(out, place, reply.answer.a as usize, &of);
    output::byte(out, place, b'\n')
}

// An answer with a text after it.
fn texted(out: &mut [u8; 65536], at: usize, reply: LineReply) -> usize {
    let of = reply.values;
    let mut place = details(out, at, reply.answer);
    place = output::text(out, place, b" | ");
    place = bytes(out, place, of[0] as usize, &of);
    output::byte(out, place, b'\n')
}

// One reply, and the next place. A reply has at most 4,096 bytes. A write that fails leaves the buffer as it was.
pub fn put<W: Write>(
    to: &mut W,
    out: &mut [u8; 65536],
    at: usize,
    reply: LineReply,
) -> Result<usize>
    ensures { OnErr result (out.new ≡ out.old) }
{
    let room = output::make_room(to, out, at)?;
    let form = reply.form;
    // A match, and no closure that is handed on: a reply is plain data.
    Ok(match form {
        Form::Unknown => output::text(out, room, b"?\n"),
        Form::Plain => plain(out, room, reply),
        Form::Barred => barred(out, room, reply, false),
        Form::Signed => barred(out, room, reply, true),
        Form::Written => written(out, room, reply),
        Form::Text => texted(out, room, reply),
    })
}
