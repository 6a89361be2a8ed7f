// The lists of a text of the layout notation: extents, strides, offsets. What they promise is a run of the notation's machine, as the tokens' promises are.
// Public only for the crate above, which reads texts.
#![tactic(auto)]

ghost use Rattle.std.specs.Prelude.{◌≡◌, cond, false, ◌<◌, ◌≤◌, pos, neg_ℤ, replicate};
ghost use Rattle.notation.specs.Text.{axis_meant, is_marked};
ghost use Rattle.card.specs.Card.{none};
ghost use Rattle.notation.specs.Meaning.{value_of};
ghost use Rattle.reading_lists.specs.Lists.{ExtentsFrom, Paced, Listed, Singled, Offsets};

use card::{Iter, Iters};
use notation::{NamedAxis, Step};

// The places of what stands between two lists and of what closes them among the words of `reading_letters::expected`.
const BETWEEN: usize = 27;

const CLOSE: usize = 30;

// A stride or an offset as a number.
fn value(negative: bool, size: u64) -> i64
    requires { size < 100000 }
    ensures { result ≡ cond negative (neg_ℤ (pos size)) (pos size) }
{
    if negative {
        return 0 - size as i64;
    }
    size as i64
}

// Whether a star stands after the axis.
fn is_marked(place: NamedAxis) -> bool
    ensures { result ≡ is_marked place }
{
    match place {
        NamedAxis::Bare => false,
        NamedAxis::At(_) => false,
        NamedAxis::Marked(_) => true,
    }
}

// Extents that have been read, and where they end; or where the text goes wrong.
#[derive(Clone, Copy)]
pub struct Extents {
    pub fits: bool,
    pub next: usize,
    pub at: [Iter; 8],
    pub count: usize,
}

fn no_extents(next: usize) -> Extents
    ensures { result ≡ record { fits = false; next = next; at = replicate 8 none; count = 0 } }
{
    let none = Iter {
        extent: 0,
        stride: 0,
        axis: 0,
    };
    Extents {
        fits: false,
        next,
        at: [none; 8],
        count: 0,
    }
}

// The extents of a list in parentheses, at least and at most so many, up to the strides.
fn read_extents(text: &[u8], from: usize, least: usize, most: usize) -> Extents
    requires { (1 ≤ most) × (most ≤ 8) }
    ensures { ExtentsFrom text.now from least most result }
{
    let none = Iter {
        extent: 0,
        stride: 0,
        axis: 0,
    };
    let mut at = [none; 8];
    let mut i = from;
    for k in 0..most {
        let one = reading_tokens::number(text, i, 0);
        let next = one.next;
        if !one.fits {
            return no_extents(next);
        }
        at[k] = Iter {
            extent: one.value,
            stride: 0,
            axis: 0,
        };
        if !reading_tokens::stands(text, next, b',') {
            if reading_tokens::stands(text, next, b')') & (least <= k + 1) {
                let open = reading_tokens::word(text, next + 1, BETWEEN, 0);
                return Extents {
                    fits: open.fits,
                    next: open.next,
                    at,
                    count: k + 1,
                };
            }
            return no_extents(next);
        }
        i = next + 1;
    }
    // a comma after the most: the text goes wrong at it
    no_extents(i - 1)
}

// An iter with its stride and its axis, in the place of none.
fn with_step(iter: Iter, step: Step) -> Iter
    requires { step.size < 100000 }
    ensures { result ≡ record { extent = iter.extent; stride = value_of step; axis = axis_meant step.place } }
{
    let place = step.place;
    let axis = reading_letters::axis_of(place);
    let stride = value(step.negative, step.size);
    Iter {
        extent: iter.extent,
        stride,
        axis,
    }
}

// The iters with their strides and the marks, and where the list ends; or where the text goes wrong.
#[derive(Clone, Copy)]
pub struct StepsRead {
    pub fits: bool,
    pub next: usize,
    pub at: [Iter; 8],
    pub marks: [bool; 8],
}

fn no_steps(next: usize) -> StepsRead
    ensures { result ≡ record { fits = false; next = next; at = replicate 8 none; marks = replicate 8 false } }
{
    let none = Iter {
        extent: 0,
        stride: 0,
        axis: 0,
    };
    StepsRead {
        fits: false,
        next,
        at: [none; 8],
        marks: [false; 8],
    }
}

// As many strides as there are extents, up to the end of the list. Only the shard's may have stars.
fn read_steps(text: &[u8], from: usize, iters: [Iter; 8], count: usize, shard: bool) -> StepsRead
    requires { (1 ≤ count) × (count ≤ 8) }
    ensures { Paced text.now from iters count shard result }
{
    let mut at = iters;
    let mut marks = [false; 8];
    let mut i = from;
    for k in 0..count {
        let one = reading_tokens::read_step(text, i, 0, shard);
        let next = one.next;
        if !one.fits {
            return no_steps(next);
        }
        let step = one.step;
        let place = step.place;
        at[k] = with_step(at[k], step);
        marks[k] = is_marked(place);
        if !reading_tokens::stands(text, next, b',') {
            if reading_tokens::stands(text, next, b')') & (k + 1 == count) {
                let shut = reading_tokens::word(text, next + 1, CLOSE, 0);
                return StepsRead {
                    fits: shut.fits,
                    next: shut.next,
                    at,
                    marks,
                };
            }
            return no_steps(next);
        }
        i = next + 1;
    }
    // a comma after the last: the text goes wrong at it
    no_steps(i - 1)
}

// A list that has been read, and where it ends; or where the text goes wrong.
#[derive(Clone, Copy)]
pub struct List {
    pub fits: bool,
    pub next: usize,
    pub iters: Iters,
    pub marks: [bool; 8],
}

// A list in parentheses. Public, with a requires, room for the most iters, for the crate above.
pub fn read_list(text: &[u8], from: usize, least: usize, most: usize, shard: bool) -> List
    requires { (1 ≤ most) × (most ≤ 8) }
    ensures { Listed text.now from least most shard result }
{
    let sizes = read_extents(text, from, least, most);
    let at = sizes.at;
    let count = sizes.count;
    if !sizes.fits {
        return List {
            fits: false,
            next: sizes.next,
            iters: Iters { at, count: 0 },
            marks: [false; 8],
        };
    }
    let all = read_steps(text, sizes.next, at, count, shard);
    let done = all.at;
    let marks = all.marks;
    List {
        fits: all.fits,
        next: all.next,
        iters: Iters {
            at: done,
            count: count as u64,
        },
        marks,
    }
}

// A single iter that has been read, and where its replica ends; or where the text goes wrong.
#[derive(Clone, Copy)]
pub struct Single {
    pub fits: bool,
    pub next: usize,
    pub iter: Iter,
}

fn no_single(next: usize) -> Single
    ensures { result ≡ record { fits = false; next = next; iter = none } }
{
    Single {
        fits: false,
        next,
        iter: Iter {
            extent: 0,
            stride: 0,
            axis: 0,
        },
    }
}

// A bare iter and the bracket that ends its replica.
pub fn read_single(text: &[u8], from: usize) -> Single
    ensures { Singled text.now from result }
{
    let size = reading_tokens::number(text, from, 0);
    let next = size.next;
    if !size.fits {
        return no_single(next);
    }
    if !reading_tokens::stands(text, next, b':') {
        return no_single(next);
    }
    let one = reading_tokens::read_step(text, next + 1, 0, false);
    let end = one.next;
    if !one.fits {
        return no_single(end);
    }
    if !reading_tokens::stands(text, end, b']') {
        return no_single(end);
    }
    let step = one.step;
    let bare = Iter {
        extent: size.value,
        stride: 0,
        axis: 0,
    };
    Single {
        fits: true,
        next: end + 1,
        iter: with_step(bare, step),
    }
}

// Offsets that have been read to the end of the text; or where it goes wrong.
#[derive(Clone, Copy)]
pub struct Shifts {
    pub fits: bool,
    pub next: usize,
    pub offset: [i64; 8],
}

// Offsets on rising axes, up to the end of the text: after one on m, the last axis, none follows.
pub fn offsets(text: &[u8], from: usize) -> Shifts
    ensures { Offsets text.now from result }
{
    let mut offset = [0; 8];
    let mut i = from;
    let mut least: u64 = 0;
    // a `loop`, since the axes rise by as much as the text says: no index counts the offsets
    loop {
        let one = reading_tokens::read_step(text, i, least, false);
        let next = one.next;
        if !one.fits {
            return Shifts {
                fits: false,
                next,
                offset,
            };
        }
        let step = one.step;
        let place = step.place;
        let axis = reading_letters::axis_of(place);
        offset[axis as usize] = value(step.negative, step.size);
        if text.len() <= next {
            return Shifts {
                fits: true,
                next,
                offset,
            };
        }
        if !((text[next] == b'+') & (axis < 7)) {
            return Shifts {
                fits: false,
                next,
                offset,
            };
        }
        least = axis + 1;
        i = next + 1;
    }
}
