// A line of eight lengths as it is typed: eight of the notation's numbers, parted by single spaces.
#![tactic(auto)]

ghost use Rattle.std.specs.Prelude.{◌≡◌};
ghost use Rattle.typed_lengths.specs.Line.{LengthsAnswered};
ghost use Rattle.typed_lengths.specs.Machine.{line_at, zeros, before_move, inside_move, line_phase_move, is_inside, line_concluded};

// What reading a line gives: whether it is one, and its lengths.
#[derive(Clone, Copy)]
pub struct LineOfLengths {
    pub correct: bool,
    pub lengths: [u64; 8],
}

// Where in the line the reader stands: before a number, in one, or past what no such line has.
#[derive(Clone, Copy)]
pub enum LinePhase {
    Before,
    Inside,
    Stuck,
}

// The number that is being read, how many came before it, and these.
#[derive(Clone, Copy)]
pub struct LineReader {
    pub phase: LinePhase,
    pub value: u64,
    pub count: usize,
    pub lengths: [u64; 8],
}

fn to(phase: LinePhase, value: u64, count: usize, lengths: [u64; 8]) -> LineReader
    ensures { result ≡ line_at phase value count lengths }
{
    LineReader {
        phase,
        value,
        count,
        lengths,
    }
}

// Nothing is kept: before the first number, or past what no such line has.
fn empty(phase: LinePhase) -> LineReader
    ensures { result ≡ line_at phase 0 0 zeros }
{
    to(phase, 0, 0, [0; 8])
}

// A number begins with a digit.
fn before(r: LineReader, b: u8) -> LineReader
    ensures { result ≡ before_move r b }
{
    let d = reading_letters::digit(b);
    if d < 10 {
        let lengths = r.lengths;
        return to(LinePhase::Inside, d, r.count, lengths);
    }
    empty(LinePhase::Stuck)
}

// A number goes on with a digit, and a space ends one of the first seven.
fn inside(r: LineReader, b: u8) -> LineReader
    ensures { result ≡ inside_move r b }
{
    let d = reading_letters::digit(b);
    let count = r.count;
    let mut lengths = r.lengths;
    if reading_letters::goes_on(r.value, d) {
        return to(
            LinePhase::Inside,
            reading_letters::longer(r.value, d),
            count,
            lengths,
        );
    }
    if (b == b' ') & (count < 7) {
        lengths[count] = r.value;
        return to(LinePhase::Before, 0, count + 1, lengths);
    }
    empty(LinePhase::Stuck)
}

fn advance(r: LineReader, b: u8) -> LineReader
    ensures { result ≡ line_phase_move r.phase r b }
{
    let phase = r.phase;
    // A match, and no function kept as the phase: the definition goes by the same phases.
    match phase {
        LinePhase::Before => before(r, b),
        LinePhase::Inside => inside(r, b),
        LinePhase::Stuck => empty(LinePhase::Stuck),
    }
}

fn is_inside(phase: LinePhase) -> bool
    ensures { result ≡ is_inside phase }
{
    match phase {
        LinePhase::Before => false,
        LinePhase::Inside => true,
        LinePhase::Stuck => false,
    }
}

// At the end of the line the eighth number ends.
fn conclude(r: LineReader) -> LineOfLengths
    ensures { result ≡ line_concluded r }
{
    let phase = r.phase;
    if is_inside(phase) & (r.count == 7) {
        let mut lengths = r.lengths;
        lengths[7] = r.value;
        return LineOfLengths {
            correct: true,
            lengths,
        };
    }
    LineOfLengths {
        correct: false,
        lengths: [0; 8],
    }
}

// Reads a line: its eight lengths, or that it is none.
pub fn read(line: &[u8]) -> LineOfLengths
    ensures { LengthsAnswered line.now result }
{
    let mut r = empty(LinePhase::Before);
    for b in line {
        r = advance(r, *b);
    }
    conclude(r)
}
