// An input, part by part and line by line.
ghost use Rattle.std.specs.Prelude.{◌≡◌, OnErr};

use std::io::{Read, Result};

// Where the input stands: the next byte of the part that was read last and the end of that part, how
// many bytes the line has so far, one more than the buffer where it is too long, whether the line is
// whole, and whether the input has ended. A line is whole at its line feed; at the end of the input
// a last line without one is whole too, if it has a byte.
#[derive(Clone, Copy)]
pub struct Input {
    pub next: usize,
    pub end: usize,
    pub held: usize,
    // what is told of the line, and no flag of the places before it
    pub whole: bool,
    pub ended: bool,
}

// Before the first read.
pub fn start() -> Input {
    Input {
        next: 0,
        end: 0,
        held: 0,
        whole: false,
        ended: false,
    }
}

// Whether the part is used up, so that `advance` will read, which may wait.
pub fn is_used_up(input: Input) -> bool {
    input.end <= input.next
}

// One more byte of the line.
fn keep(line: &mut [u8; 4096], held: usize, b: u8) -> usize {
    if held < line.len() {
        line[held] = b;
        return held + 1;
    }
    line.len() + 1
}

// How many bytes the line has so far; after a whole one the next begins.
fn begun(input: Input) -> usize {
    if input.whole { 0 } else { input.held }
}

// Takes the bytes up to the end of the line, or of the part; no place is past the part's 65,536.
fn scan(part: &[u8; 65536], line: &mut [u8; 4096], input: Input) -> Input {
    let end = input.end;
    let mut held = begun(input);
    for next in input.next..end {
        let b = part[next % 65536];
        if b == b'\n' {
            return Input {
                next: next + 1,
                end,
                held,
                whole: true,
                ended: false,
            };
        }
        held = keep(line, held, b);
    }
    Input {
        next: end,
        end,
        held,
        whole: false,
        ended: false,
    }
}

// Reads the next part.
fn refill<R: Read>(from: &mut R, part: &mut [u8; 65536], input: Input) -> Result<Input> {
    let got = from.read(part)?;
    let held = begun(input);
    let ended = got == 0;
    Ok(Input {
        next: 0,
        end: got,
        held,
        whole: ended & (0 < held),
        ended,
    })
}

// Goes on to the end of the line or of the part, or reads the next part where this one is used up. A read that fails leaves the line as it was.
pub fn advance<R: Read>(
    from: &mut R,
    part: &mut [u8; 65536],
    line: &mut [u8; 4096],
    input: Input,
) -> Result<Input>
    ensures { OnErr result (line.new ≡ line.old) }
{
    if is_used_up(input) {
        return refill(from, part, input);
    }
    Ok(scan(part, line, input))
}
