// What of a text in the layout notation is one piece: a byte, a number, an axis' name, a stride or an offset, put into a buffer of 512 bytes.
#![tactic(auto)]

ghost use Rattle.std.specs.Prelude.{◌≡◌, [], ◌∷◌, ◌+◌, ◌%◌, ◌≤◌, nat_abs};
ghost use Rattle.std.proofs.Math.Seq.{slice};
ghost use Rattle.notation.specs.Text.{digits, decimal, name, spell_signed, spell_step};
ghost use Rattle.notation.specs.Writing.{is_below, step_for};
ghost use Rattle.writing_words.specs.Out.{wrote, Free, words};

// The text so far.
#[derive(Clone, Copy)]
pub struct Out {
    pub bytes: [u8; 512],
    pub length: usize,
}

// The axes' names, and what opens the shard and the replica.
const WORDS: [u8; 32] = *b"pidwarpidlaneidPFTLaneTColmS[+R[";

// One byte more. Public, with a requires, for the crate above.
pub fn put(out: Out, b: u8) -> Out
    requires { Free 1 out }
    ensures { (result ≡ wrote out (b ∷ [])) × (result.length ≤ out.length + 1) }
{
    let mut bytes = out.bytes;
    let at = out.length;
    bytes[at] = b;
    Out {
        bytes,
        length: at + 1,
    }
}

// A word of WORDS. Public, with a requires, for the crate above.
pub fn put_word(out: Out, from: usize, count: usize) -> Out
    requires { Free count out × (from + count ≤ 32) }
    ensures { (result ≡ wrote out (slice from (from + count) words)) × (result.length ≤ out.length + count) }
{
    let mut written = out;
    for k in from..from + count {
        written = put(written, WORDS[k]);
    }
    written
}

// The last digit of a number.
fn put_digit(out: Out, n: u64) -> Out
    requires { Free 1 out }
    ensures { (result ≡ wrote out ((48 + n % 10) ∷ [])) × (result.length ≤ out.length + 1) }
{
    put(out, (48 + n % 10) as u8)
}

// A number in at most so many digits.
fn put_1(out: Out, n: u64) -> Out
    requires { Free 1 out }
    ensures { (result ≡ wrote out (digits 1 n)) × (result.length ≤ out.length + 1) }
{
    put_digit(out, n)
}

fn put_2(out: Out, n: u64) -> Out
    requires { Free 2 out }
    ensures { (result ≡ wrote out (digits 2 n)) × (result.length ≤ out.length + 2) }
{
    if n < 10 {
        return put_digit(out, n);
    }
    put_digit(put_1(out, n / 10), n)
}

fn put_3(out: Out, n: u64) -> Out
    requires { Free 3 out }
    ensures { (result ≡ wrote out (digits 3 n)) × (result.length ≤ out.length + 3) }
{
    if n < 10 {
        return put_digit(out, n);
    }
    put_digit(put_2(out, n / 10), n)
}

fn put_4(out: Out, n: u64) -> Out
    requires { Free 4 out }
    ensures { (result ≡ wrote out (digits 4 n)) × (result.length ≤ out.length + 4) }
{
    if n < 10 {
        return put_digit(out, n);
    }
    put_digit(put_3(out, n / 10), n)
}

// A number of the notation, in at most five. Public, with a requires, for the crate above.
pub fn put_decimal(out: Out, n: u64) -> Out
    requires { Free 5 out }
    ensures { (result ≡ wrote out (decimal n)) × (result.length ≤ out.length + 5) }
{
    if n < 10 {
        return put_digit(out, n);
    }
    put_digit(put_4(out, n / 10), n)
}

// How far a number is from zero. Public for the crate above.
pub fn magnitude(z: i64) -> u64
    ensures { result ≡ nat_abs z }
{
    if z < 0 {
        return (-1 - z) as u64 + 1;
    }
    z as u64
}

// A number with its sign.
fn put_signed(out: Out, z: i64) -> Out
    requires { Free 6 out }
    ensures { (result ≡ wrote out (spell_signed (is_below z) (nat_abs z))) × (result.length ≤ out.length + 6) }
{
    let size = magnitude(z);
    if z < 0 {
        return put_decimal(put(out, b'-'), size);
    }
    put_decimal(out, size)
}

// The name of an axis.
fn put_name(out: Out, axis: u64) -> Out
    requires { Free 6 out }
    ensures { (result ≡ wrote out (name axis)) × (result.length ≤ out.length + 6) }
{
    match axis {
        0 => put_word(out, 0, 3),
        1 => put_word(out, 3, 6),
        2 => put_word(out, 9, 6),
        3 => put_word(out, 15, 1),
        4 => put_word(out, 16, 1),
        5 => put_word(out, 17, 5),
        6 => put_word(out, 22, 4),
        7 => put_word(out, 26, 1),
        _ => out,
    }
}

// A stride or an offset with its axis, and a star where it is marked. Public, with a requires, for the crate above.
pub fn put_step(out: Out, z: i64, mark: bool, axis: u64) -> Out
    requires { Free 14 out }
    ensures { (result ≡ wrote out (spell_step (step_for z mark axis))) × (result.length ≤ out.length + 14) }
{
    let named = put_name(put(put_signed(out, z), b'@'), axis);
    if mark {
        return put(named, b'*');
    }
    named
}
