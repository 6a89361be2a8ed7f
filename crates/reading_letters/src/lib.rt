// The bytes of the layout notation: digits, the beginnings of names, and the letters that have to follow. Public only for the crates above, which
// read texts and lines of lengths.
#![tactic(auto)]

ghost use Rattle.std.specs.Prelude.{◌≡◌, true, ◌+◌, ◌*◌};
ghost use Rattle.notation.specs.Text.{axis_meant};
ghost use Rattle.notation.specs.Machine.{digit_of, continues, initial_of, rest_of, letter};

use notation::NamedAxis;

// The digit that a byte is, 10 for none.
pub fn digit(b: u8) -> u64
    ensures { result ≡ digit_of b }
{
    if b < b'0' {
        return 10;
    }
    if b'9' < b {
        return 10;
    }
    (b - b'0') as u64
}

// Whether a digit may follow a number: not after a zero that begins it, and not after five digits.
pub fn goes_on(value: u64, d: u64) -> bool
    ensures { result ≡ continues value d }
{
    (d < 10) & ((1 <= value) & (value < 10000))
}

// The axis whose name begins with a byte, T apart; 8 for none.
pub fn initial(b: u8) -> u64
    ensures { result ≡ initial_of b }
{
    match b {
        b'p' => 0,
        b'w' => 1,
        b'l' => 2,
        b'P' => 3,
        b'F' => 4,
        b'm' => 7,
        _ => 8,
    }
}

// Where among the words of `expected` the rest of an axis's name begins; a name of one letter has none.
pub fn rest(axis: u64) -> usize
    ensures { result ≡ rest_of axis }
{
    match axis {
        0 => 1,
        1 => 4,
        2 => 10,
        _ => 0,
    }
}

// The byte that has to come next, 0 for none: the words id, arpid, aneid, ane, ol, S[(, :(, ] and [ stand one after the other from place 1 on, and after
// each is a place with no letter, where nothing is owed.
pub fn expected(owed: usize) -> u8
    ensures { result ≡ letter owed }
{
    let at = owed % 64;
    match at {
        1 => b'i',
        2 => b'd',
        4 => b'a',
        5 => b'r',
        6 => b'p',
        7 => b'i',
        8 => b'd',
        10 => b'a',
        11 => b'n',
        12 => b'e',
        13 => b'i',
        14 => b'd',
        16 => b'a',
        17 => b'n',
        18 => b'e',
        20 => b'o',
        21 => b'l',
        23 => b'S',
        24 => b'[',
        25 => b'(',
        27 => b':',
        28 => b'(',
        30 => b']',
        32 => b'[',
        _ => 0,
    }
}

// A number with one more digit. Public, with a requires, a digit that may follow, for the crate above.
pub fn longer(value: u64, d: u64) -> u64
    requires { continues value d ≡ true }
    ensures { result ≡ value * 10 + d }
{
    value * 10 + d
}

// The axis of a stride or an offset; a missing axis means m.
pub fn axis_of(place: NamedAxis) -> u64
    ensures { result ≡ axis_meant place }
{
    match place {
        NamedAxis::Bare => 7,
        NamedAxis::At(axis) => axis,
        NamedAxis::Marked(axis) => axis,
    }
}
