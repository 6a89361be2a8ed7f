// Text out, put into a buffer that is written out when it fills or when the program asks for it.
ghost use Rattle.std.specs.Prelude.{◌≤◌};

use std::io::{Result, Write};

// The last place at which a piece of text may begin: it has at most 4,096 bytes, and the buffer
// 65,536.
const LAST_START: usize = 61440;

// One byte at a place of the buffer, and the next place. Without room it is left out, which
// `make_room` prevents by writing the buffer out in time.
pub fn byte(out: &mut [u8; 65536], at: usize, b: u8) -> usize
    ensures { at ≤ result }
{
    if at < out.len() {
        out[at] = b;
        return at + 1;
    }
    at
}

// A text, byte for byte.
pub fn text(out: &mut [u8; 65536], at: usize, from: &[u8]) -> usize
    ensures { at ≤ result }
{
    let mut place = at;
    for b in from {
        place = byte(out, place, *b);
    }
    place
}

// A number in decimal.
pub fn decimal(out: &mut [u8; 65536], at: usize, n: u64) -> usize
    ensures { at ≤ result }
{
    let mut digits = [0u8; 20];
    let k = io::decimal(n, &mut digits);
    text(out, at, &digits[..k])
}

// A space and a number.
pub fn spaced(out: &mut [u8; 65536], at: usize, n: u64) -> usize
    ensures { at ≤ result }
{
    let place = byte(out, at, b' ');
    decimal(out, place, n)
}

// Writes out the text that waits, and begins the buffer anew.
pub fn write_out<W: Write>(to: &mut W, out: &[u8], at: usize) -> Result<usize> {
    if at <= out.len() {
        to.write_all(&out[0..at])?;
    }
    Ok(0)
}

// The place of the next piece of text: the buffer is written out first where it might not fit.
pub fn make_room<W: Write>(to: &mut W, out: &[u8], at: usize) -> Result<usize> {
    if at <= LAST_START {
        return Ok(at);
    }
    write_out(to, out, at)
}
