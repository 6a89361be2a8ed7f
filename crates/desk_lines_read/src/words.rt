// The words that are questions, and what a line asks.
ghost use Rattle.std.specs.Prelude.{◌≤◌, length, IfSome};

use crate::rule;
use desk_lines::places;
use desk_lines::places::Kept;

// What a word with marks ends in, and the largest number of marks: bit k for shard iter k.
const STAR: u8 = 42;

const MOST_MARKS: u64 = 255;

#[derive(Clone, Copy)]
pub enum Word {
    Swizzle,
    Mode,
    Bank,
    Fragment,
    Holder,
    Fields,
    Descriptor,
    Mask,
    Place,
    Verdict,
    Owner,
    Stretch,
    Write,
    Canonical,
    Block,
    Carry,
    Plan,
    Mma,
    MmaHolder,
    MmaLayout,
}

// The word of this name.
fn word_of(name: &[u8]) -> Option<Word> {
    match name {
        b"swizzle" => Some(Word::Swizzle),
        b"mode" => Some(Word::Mode),
        b"bank" => Some(Word::Bank),
        b"fragment" => Some(Word::Fragment),
        b"holder" => Some(Word::Holder),
        b"fields" => Some(Word::Fields),
        b"descriptor" => Some(Word::Descriptor),
        b"mask" => Some(Word::Mask),
        b"place" => Some(Word::Place),
        b"verdict" => Some(Word::Verdict),
        b"owner" => Some(Word::Owner),
        b"stretch" => Some(Word::Stretch),
        b"write" => Some(Word::Write),
        b"canonical" => Some(Word::Canonical),
        b"block" => Some(Word::Block),
        b"carry" => Some(Word::Carry),
        b"plan" => Some(Word::Plan),
        b"mma" => Some(Word::Mma),
        b"mma-holder" => Some(Word::MmaHolder),
        b"mma-layout" => Some(Word::MmaLayout),
        _ => None,
    }
}

// The most numbers that the plan on a line may have.
pub const MOST_CARRIED: u64 = 256;

// How many numbers the question of a word has, or of `carry` the most that it can have.
fn most(word: Word) -> usize {
    match word {
        Word::Swizzle => 4,
        Word::Mode => 2,
        Word::Bank => 2,
        Word::Fragment => 3,
        Word::Holder => 4,
        Word::Fields => 1,
        Word::Descriptor => places::WRITTEN + places::FIELDS,
        Word::Mask => places::MASK_LENT + 1,
        Word::Place => places::PLACE_LENT + 1,
        Word::Verdict => places::VERDICT_LENT + 1,
        Word::Owner => places::OWNER_LENT + 1,
        Word::Stretch => places::STRETCH_LENT + 1,
        Word::Write => places::WRITE_LENT + 1,
        Word::Canonical => places::CANONICAL_LENT + 1,
        Word::Block => places::BLOCK_LENT + 1,
        Word::Carry => places::CARRIED + 256 + 2,
        Word::Plan => places::TABLES_LENT + 2,
        Word::Mma => 4,
        Word::MmaHolder => 4,
        Word::MmaLayout => 1,
    }
}

// With how many cards the question of a word begins; `write` has the first numbers of one.
fn cards(word: Word) -> usize
    ensures { result ≤ 2 }
{
    match word {
        Word::Place | Word::Verdict | Word::Owner | Word::Write | Word::Block => 1,
        Word::Carry | Word::Plan => 2,
        _ => 0,
    }
}

// Whether the question of a word has so many numbers, these; how many `carry` has goes by the count on its line.
fn has_all(word: Word, count: usize, numbers: &Kept) -> bool {
    let Word::Carry = word else {
        return count == most(word);
    };
    let carried = numbers[places::COUNT];
    if MOST_CARRIED < carried {
        return false;
    }
    count == places::CARRIED + carried as usize + 2
}

// What a word asks whose numbers begin at a place of the line.
fn asked(word: Word, line: &[u8], from: usize, numbers: &mut Kept) -> Option<Word> {
    let reached = rule::read(line, from, cards(word), 0, most(word), numbers)?;
    if (reached.end < line.len()) | !has_all(word, reached.place, numbers) {
        return None;
    }
    Some(word)
}

// What a word with a star asks: the marks of each card come first, and then it is as without one.
fn asked_with_marks(word: Word, line: &[u8], from: usize, numbers: &mut Kept) -> Option<Word> {
    let marked = cards(word);
    if marked == 0 {
        return None;
    }
    let end = places::MARKS + marked;
    let reached = rule::read(line, from, 0, places::MARKS, end, numbers)?;
    if (MOST_MARKS < numbers[places::MARKS]) | (MOST_MARKS < numbers[places::MARKS + 1]) {
        return None;
    }
    asked(word, line, reached.end, numbers)
}

// How long a word is that a text follows, with its space; the most bytes of a text, and the most digits of a block.
pub const SPACED: usize = 5;

const MOST_TEXT: usize = 1024;

const MOST_DIGITS: usize = 2048;

// What follows a word and one space, if a line begins with these and it is at most so many bytes.
fn text_after<'a>(line: &'a [u8], word: &[u8; SPACED], most: usize) -> Option<&'a [u8]>
    ensures { IfSome result (λ text. length text.now ≤ most) }
{
    let text = line.strip_prefix(&word[..])?;
    if most < text.len() {
        return None;
    }
    Some(text)
}

// The text of the notation that a line asks to read: any bytes.
pub fn text_to_read(line: &[u8]) -> Option<&[u8]>
    ensures { IfSome result (λ text. length text.now ≤ 1024) }
{
    text_after(line, b"read ", MOST_TEXT)
}

// The block that a line asks to read: a text, of which the digits are still to be looked at.
pub fn page_to_read(line: &[u8]) -> Option<&[u8]>
    ensures { IfSome result (λ digits. length digits.now ≤ 2048) }
{
    text_after(line, b"page ", MOST_DIGITS)
}

// Where the word of a line ends: at its first space, or with the line.
fn word_end(line: &[u8]) -> usize
    ensures { result ≤ length line.now }
{
    for i in 0..line.len() {
        if line[i] == b' ' {
            return i;
        }
    }
    line.len()
}

// What a line asks: a word with all its numbers, which are kept in their order. The word may hold any byte
// but a space: it is compared as a whole.
pub fn question(line: &[u8], numbers: &mut Kept) -> Option<Word> {
    let end = word_end(line);
    if end == 0 {
        return None;
    }
    numbers[places::MARKS] = 0;
    numbers[places::MARKS + 1] = 0;
    if line[end - 1] == STAR {
        return asked_with_marks(word_of(&line[..end - 1])?, line, end, numbers);
    }
    asked(word_of(&line[..end])?, line, end, numbers)
}
