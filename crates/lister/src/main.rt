// The program lister: blocks of 512 bytes on standard input, a line for each, its index from 0 and the reader's number.
// A last short block is 11; an empty input prints nothing.
#![tactic(auto)]

ghost use Rattle.std.specs.Prelude.{◌≡◌, ◌^◌, ◌≤◌, OnErr};

use std::io::{Read, Result, Write};
use text::output;

// The input is read in parts of so many blocks. No run uses up so many parts, and each of their blocks has an index.
const BLOCKS: u64 = 128;

const PARTS: u64 = 36028797018963968;

// The reader's number for the block that begins these bytes.
fn number_of(bytes: &[u8]) -> u64 {
    let page = storing::read_block(bytes);
    let answer = page.answer;
    let numbers = answers::in_numbers(answer);
    numbers.number
}

// The line of one block.
fn put(out: &mut [u8; 65536], at: usize, index: u64, number: u64) -> usize {
    let mut place = output::decimal(out, at, index);
    place = output::byte(out, place, b' ');
    place = output::decimal(out, place, number);
    output::byte(out, place, b'\n')
}

// The lines of the blocks of a part, of which the last may be short; together they are shorter than what is made room for.
fn list<W: Write>(
    part: &[u8],
    first: u64,
    to: &mut W,
    out: &mut [u8; 65536],
    at: usize,
) -> Result<usize>
    requires { first ≤ 2 ^ 62 }
    ensures { OnErr result (out.new ≡ out.old) }
{
    let mut place = output::make_room(to, out, at)?;
    for (i, block) in part.chunks(book::BLOCK).enumerate() {
        place = put(out, place, first + i as u64, number_of(block));
    }
    Ok(place)
}

// What is held of a part.
fn held_of(part: &[u8], held: usize) -> &[u8] {
    if held < part.len() {
        return &part[..held];
    }
    part
}

// The lines of the blocks that are held of a part.
fn list_held<W: Write>(
    part: &[u8; 65536],
    held: usize,
    first: u64,
    to: &mut W,
    out: &mut [u8; 65536],
    at: usize,
) -> Result<usize>
    requires { first ≤ 2 ^ 62 }
    ensures { OnErr result (out.new ≡ out.old) }
{
    list(held_of(part, held), first, to, out, at)
}

// Fills a part, or as much of it as the input still has.
fn read_part<R: Read>(from: &mut R, part: &mut [u8; 65536]) -> Result<usize> {
    let mut done: usize = 0;
    // a `while`, since each turn goes on by what its read gave
    while done < part.len() {
        let got = from.read(&mut part[done..])?;
        if got == 0 {
            break;
        }
        done += got;
    }
    Ok(done)
}

// Lists part after part; at the end what waits is written out. A proved loop has to end, so its turns are counted, up to a
// number that no run uses up.
fn list_input<R: Read, W: Write>(
    from: &mut R,
    part: &mut [u8; 65536],
    to: &mut W,
    out: &mut [u8; 65536],
) -> Result<()> {
    let mut at: usize = 0;
    for turn in 0..PARTS {
        let held = read_part(from, part)?;
        if held == 0 {
            break;
        }
        at = list_held(part, held, turn * BLOCKS, to, out, at)?;
    }
    output::write_out(to, out, at)?;
    Ok(())
}

fn main(rt: HostRuntime) -> Result<()> {
    let mut part = [0u8; 65536];
    let mut out = [0u8; 65536];
    list_input(&mut rt.stdin(), &mut part, &mut rt.stdout(), &mut out)
}
