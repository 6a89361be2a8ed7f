// The program judge: eight lengths on one line and a notation on the next, one line out. It reads the first two
// lines and no more of its input.
// Of a line 4,096 bytes are kept: no line of eight lengths and no correct text is so long, so of a longer one the beginning is answered as the whole
// (typed_judged, proofs/Long.antt), and judge_kept promises what the two whole lines come to. Only the reading of the lines and the printing are tested.
#![tactic(auto)]

ghost use Rattle.std.specs.Prelude.{◌≡◌, take};
ghost use Rattle.typed_judged.specs.Judge.{JudgedKept};

use answers::Numbers;
use std::io::{Read, Result, Write};
use text::input::Input;
use text::{input, output};

// The entries that the program lends to the verdict.
const LENT: usize = 16384;

// Reads on to the end of a line; where the input has ended before it, the line is empty. A proved loop has to end, so
// its turns are counted, up to a number that no run uses up.
fn next_line<R: Read>(
    from: &mut R,
    part: &mut [u8; 65536],
    line: &mut [u8; 4096],
    before: Input,
) -> Result<Input> {
    if before.ended {
        return Ok(input::start());
    }
    let mut input = before;
    for _ in 0..u64::MAX {
        input = input::advance(from, part, line, input)?;
        if input.whole | input.ended {
            break;
        }
    }
    Ok(input)
}

// What is kept of a line that is so long.
fn kept(line: &[u8], held: usize) -> &[u8]
    ensures { result.now ≡ take held line.now }
{
    if held < line.len() {
        return &line[..held];
    }
    line
}

// The verdict on two lines of which the first 4,096 bytes are kept. It is that on the whole lines, since no line of eight
// lengths and no correct text is so long (typed_judged, proofs/Long.antt).
fn judge_kept(
    first: &[u8; 4096],
    second: &[u8; 4096],
    first_held: usize,
    second_held: usize,
) -> Numbers
    ensures { JudgedKept first.now first_held second.now second_held result }
{
    let mut lent = [0u32; LENT];
    let lengths = kept(first, first_held);
    let text = kept(second, second_held);
    let verdict = typed::judge_lines(lengths, text, &mut lent);
    answers::in_numbers(verdict)
}

// Judges the first two lines of the input.
fn judge_input<R: Read>(from: &mut R, part: &mut [u8; 65536]) -> Result<Numbers> {
    let mut first = [0u8; 4096];
    let mut second = [0u8; 4096];
    let before = next_line(from, part, &mut first, input::start())?;
    let after = next_line(from, part, &mut second, before)?;
    Ok(judge_kept(&first, &second, before.held, after.held))
}

// accepted A B C, or refused N A B C
fn put(out: &mut [u8; 65536], answer: Numbers) -> usize {
    let mut place = 0;
    if answer.number == 0 {
        place = output::text(out, 0, b"accepted");
    } else {
        place = output::text(out, 0, b"refused");
        place = output::spaced(out, place, answer.number);
    }
    place = output::spaced(out, place, answer.a);
    place = output::spaced(out, place, answer.b);
    place = output::spaced(out, place, answer.c);
    output::byte(out, place, b'\n')
}

fn say<W: Write>(to: &mut W, out: &mut [u8; 65536], answer: Numbers) -> Result<()> {
    let end = put(out, answer);
    output::write_out(to, out, end)?;
    Ok(())
}

fn main(rt: HostRuntime) -> Result<()> {
    let mut part = [0u8; 65536];
    let answer = judge_input(&mut rt.stdin(), &mut part)?;
    say(&mut rt.stdout(), &mut part, answer)
}
