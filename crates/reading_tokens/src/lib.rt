// Tokens of the layout notation: numbers, words, axes, strides and offsets, each read in one go. What a token promises is a run of the notation's machine
// over its bytes: where the machine stands at its beginning it comes to stand at its end, or the text goes wrong where the token says. Public only for
// the crates above, which read lists and texts.
#![tactic(auto)]

ghost use Rattle.std.specs.Prelude.{◌≡◌, true, false, ◌&&◌, ◌≤◌, ltb, eqb, length, get_or};
ghost use Rattle.notation.specs.declared.Phase.TheVariants.{At, Tee};
ghost use Rattle.reading_tokens.specs.Run.{Digits, Numbered, Worded, Axised, Sized, AxisRead, Strided};

use notation::{NamedAxis, Step};

// The places of the rest of TLane and of TCol among the words of `reading_letters::expected`.
const LANE: usize = 16;

const COL: usize = 20;

// What a token comes to: where it ends, what is still owed there, and its number or axis; or where the text goes wrong.
#[derive(Clone, Copy)]
pub struct Token {
    pub fits: bool,
    pub next: usize,
    pub owed: usize,
    pub value: u64,
}

// No text goes on here.
fn wrong(at: usize) -> Token
    ensures { result ≡ record { fits = false; next = at; owed = 0; value = 0 } }
{
    Token {
        fits: false,
        next: at,
        owed: 0,
        value: 0,
    }
}

fn right(at: usize, owed: usize, value: u64) -> Token
    ensures { result ≡ record { fits = true; next = at; owed = owed; value = value } }
{
    Token {
        fits: true,
        next: at,
        owed,
        value,
    }
}

// The digits that go on a number, up to the first byte that may not.
fn digits(text: &[u8], from: usize, first: u64) -> Token
    requires { from ≤ length text.now }
    ensures { Digits text.now from first result }
{
    let mut value = first;
    for i in from..text.len() {
        let d = reading_letters::digit(text[i]);
        if !reading_letters::goes_on(value, d) {
            return right(i, 0, value);
        }
        value = reading_letters::longer(value, d);
    }
    right(text.len(), 0, value)
}

// A number of one to five digits. Its first is at least this one: after a minus no zero stands.
pub fn number(text: &[u8], from: usize, least: u64) -> Token
    ensures { Numbered text.now from least result }
{
    if text.len() <= from {
        return wrong(from);
    }
    let d = reading_letters::digit(text[from]);
    if (least <= d) & (d < 10) {
        return digits(text, from + 1, d);
    }
    wrong(from)
}

// Whether a byte stands at a place.
pub fn stands(text: &[u8], at: usize, b: u8) -> bool
    ensures { result ≡ (ltb at (length text.now) && eqb (get_or text.now at 0) b) }
{
    if text.len() <= at {
        return false;
    }
    text[at] == b
}

// The letters that are owed, from a place among the words on; the value is the token's, where they are all there. With a requires: a place in the text or
// its end.
pub fn word(text: &[u8], from: usize, owed: usize, value: u64) -> Token
    requires { from ≤ length text.now }
    ensures { Worded text.now from owed value result }
{
    let mut o = owed;
    for i in from..text.len() {
        let wanted = reading_letters::expected(o);
        if wanted == 0 {
            return right(i, o, value);
        }
        if text[i] != wanted {
            return wrong(i);
        }
        o = o % 64 + 1;
    }
    if reading_letters::expected(o) == 0 {
        return right(text.len(), o, value);
    }
    wrong(text.len())
}

// What follows `@T`: the axis TCol or TLane, where the least axis allows it.
fn tee(text: &[u8], from: usize, least: u64) -> Token
    requires { least ≤ 6 }
    ensures { Axised Tee text.now from least result }
{
    if text.len() <= from {
        return wrong(from);
    }
    let b = text[from];
    if b == b'C' {
        return word(text, from + 1, COL, 6);
    }
    if (b == b'L') & (least <= 5) {
        return word(text, from + 1, LANE, 5);
    }
    wrong(from)
}

// What follows `@`: an axis from the least on, since the axes of offsets rise.
fn axis(text: &[u8], from: usize, least: u64) -> Token
    ensures { Axised At text.now from least result }
{
    if text.len() <= from {
        return wrong(from);
    }
    let b = text[from];
    if (b == b'T') & (least <= 6) {
        return tee(text, from + 1, least);
    }
    let a = reading_letters::initial(b);
    if (a < 8) & (least <= a) {
        return word(text, from + 1, reading_letters::rest(a), a);
    }
    wrong(from)
}

// The sign and the number of a stride or an offset, and where they end; or where the text goes wrong.
#[derive(Clone, Copy)]
pub struct Measure {
    pub fits: bool,
    pub next: usize,
    pub negative: bool,
    pub size: u64,
}

fn size(text: &[u8], from: usize) -> Measure
    ensures { Sized text.now from result }
{
    if stands(text, from, b'-') {
        let below = number(text, from + 1, 1);
        return Measure {
            fits: below.fits,
            next: below.next,
            negative: true,
            size: below.value,
        };
    }
    let n = number(text, from, 0);
    Measure {
        fits: n.fits,
        next: n.next,
        negative: false,
        size: n.value,
    }
}

// What follows the number, nothing, an axis or an axis and a star, and where it ends; or where the text goes wrong.
#[derive(Clone, Copy)]
pub struct Spotted {
    pub fits: bool,
    pub next: usize,
    pub place: NamedAxis,
}

// A star stands only where marks may, in the shard.
fn spot(text: &[u8], from: usize, least: u64, marks: bool) -> Spotted
    ensures { AxisRead text.now from least marks result }
{
    if !stands(text, from, b'@') {
        return Spotted {
            fits: true,
            next: from,
            place: NamedAxis::Bare,
        };
    }
    let name = axis(text, from + 1, least);
    let at = name.next;
    if !name.fits {
        return Spotted {
            fits: false,
            next: at,
            place: NamedAxis::Bare,
        };
    }
    if stands(text, at, b'*') & marks {
        return Spotted {
            fits: true,
            next: at + 1,
            place: NamedAxis::Marked(name.value),
        };
    }
    Spotted {
        fits: true,
        next: at,
        place: NamedAxis::At(name.value),
    }
}

// A stride or an offset, and where it ends; or where the text goes wrong.
#[derive(Clone, Copy)]
pub struct Stride {
    pub fits: bool,
    pub next: usize,
    pub step: Step,
}

// What follows a number that goes wrong is looked at too, and not used.
pub fn read_step(text: &[u8], from: usize, least: u64, marks: bool) -> Stride
    ensures { Strided text.now from least marks result }
{
    let m = size(text, from);
    let p = spot(text, m.next, least, marks);
    let place = p.place;
    let step = Step {
        negative: m.negative,
        size: m.size,
        place,
    };
    if m.fits {
        return Stride {
            fits: p.fits,
            next: p.next,
            step,
        };
    }
    Stride {
        fits: false,
        next: m.next,
        step,
    }
}
