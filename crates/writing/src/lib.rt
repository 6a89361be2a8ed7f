// Writing a card in the layout notation.
// A text is spelled into a buffer of 512 bytes and then copied, since 11 needs its length first and leaves the lent bytes untouched.
#![tactic(auto)]

ghost use Rattle.std.specs.Prelude.{◌≡◌, false, cond, [], ◌∷◌, ◌++◌, map, ◌+◌, ◌≤◌, nat_abs, eqb, length, take, drop, Ok};
ghost use Rattle.answers.specs.Refusals.{no_refusal};
ghost use Rattle.card.specs.Card.{listed, extent_of};
ghost use Rattle.card.specs.Admission.{field_checks};
ghost use Rattle.notation.specs.Quoted.{quoted_bytes as quoted};
ghost use Rattle.notation.specs.Text.{decimal, spell_step, joined, spell_lists, spell_shard, spell_replica, spell_offsets};
ghost use Rattle.notation.specs.Writing.{step_for, steps_for, offsets_from, no_marks, lists_for, text_of, written_answer, bytes_after};
ghost use Rattle.writing_words.specs.Out.{wrote, Free, no_text, joint};

use answers::Refusal;
use card::{Card, Iters};
use writing_words::Out;

// A comma before all but the first.
fn put_joint(out: Out, k: usize) -> Out
    requires { Free 1 out }
    ensures { (result ≡ wrote out (joint k)) × (result.length ≤ out.length + 1) }
{
    if k == 0 {
        return out;
    }
    writing_words::put(out, b',')
}

// The extents of a list, parted by commas.
fn put_extents(out: Out, iters: Iters) -> Out
    requires { Free 48 out × (iters.count ≤ 8) }
    ensures { (result ≡ wrote out (joined (quoted ",") (map decimal (map extent_of (listed iters))))) × (result.length ≤ out.length + 48) }
{
    let mut written = out;
    let count = iters.count as usize;
    let at = iters.at;
    for k in 0..count {
        let iter = at[k];
        written = writing_words::put_decimal(put_joint(written, k), iter.extent);
    }
    written
}

// The strides of a list, parted by commas.
fn put_strides(out: Out, iters: Iters, marks: [bool; 8]) -> Out
    requires { Free 120 out × (iters.count ≤ 8) }
    ensures { (result ≡ wrote out (joined (quoted ",") (map spell_step (steps_for (take iters.count marks) (listed iters))))) × (result.length ≤ out.length + 120) }
{
    let mut written = out;
    let count = iters.count as usize;
    let at = iters.at;
    for k in 0..count {
        let iter = at[k];
        written = writing_words::put_step(put_joint(written, k), iter.stride, marks[k], iter.axis);
    }
    written
}

// A byte, or nothing.
fn put_if(out: Out, there: bool, b: u8) -> Out
    requires { Free 1 out }
    ensures { (result ≡ wrote out (cond there (b ∷ []) [])) × (result.length ≤ out.length + 1) }
{
    if there {
        return writing_words::put(out, b);
    }
    out
}

// Extents, `:` and strides, in parentheses or without.
fn put_lists(out: Out, paren: bool, iters: Iters, marks: [bool; 8]) -> Out
    requires { Free 173 out × (iters.count ≤ 8) }
    ensures { (result ≡ wrote out (spell_lists paren (lists_for (take iters.count marks) iters))) × (result.length ≤ out.length + 173) }
{
    let extents = put_extents(put_if(out, paren, b'('), iters);
    let between = put_if(
        writing_words::put(put_if(extents, paren, b')'), b':'),
        paren,
        b'(',
    );
    put_if(put_strides(between, iters, marks), paren, b')')
}

fn put_shard(out: Out, shard: Iters, marks: [bool; 8]) -> Out
    requires { Free 176 out × (shard.count ≤ 8) }
    ensures { (result ≡ wrote out (spell_shard (lists_for (take shard.count marks) shard))) × (result.length ≤ out.length + 176) }
{
    let opened = writing_words::put_word(out, 27, 2);
    writing_words::put(put_lists(opened, true, shard, marks), b']')
}

// Nothing, or the replica: a single iter is bare.
fn put_replica(out: Out, replica: Iters) -> Out
    requires { Free 177 out × (replica.count ≤ 8) × (length replica.at ≡ 8) }
    ensures { (result ≡ wrote out (spell_replica (lists_for no_marks replica))) × (result.length ≤ out.length + 177) }
{
    if replica.count == 0 {
        return out;
    }
    let opened = writing_words::put_word(out, 29, 3);
    writing_words::put(
        put_lists(opened, 1 < replica.count, replica, [false; 8]),
        b']',
    )
}

// An offset that is not 0, after a plus.
fn put_offset(out: Out, axis: u64, z: i64) -> Out
    requires { Free 15 out }
    ensures { (result ≡ wrote out (spell_offsets (cond (eqb (nat_abs z) 0) [] (step_for z false axis ∷ [])))) × (result.length ≤ out.length + 15) }
{
    if writing_words::magnitude(z) == 0 {
        return out;
    }
    writing_words::put_step(writing_words::put(out, b'+'), z, false, axis)
}

// The offsets, rising by axis.
fn put_offsets(out: Out, offset: [i64; 8]) -> Out
    requires { Free 120 out }
    ensures { (result ≡ wrote out (spell_offsets (offsets_from 0 offset))) × (result.length ≤ out.length + 120) }
{
    let mut written = out;
    for (axis, z) in offset.iter().enumerate() {
        written = put_offset(written, axis as u64, *z);
    }
    written
}

// The text of a card that passes checks 1 to 3.
fn spelled(card: Card) -> Out
    requires { field_checks card no_refusal ≡ no_refusal }
    ensures { (result ≡ wrote no_text (text_of card)) × (result.length ≤ 344) }
{
    let empty = Out {
        bytes: [0; 512],
        length: 0,
    };
    let shard = card.shard;
    let marks = card.marks;
    let replica = card.replica;
    let offset = card.offset;
    put_offsets(put_replica(put_shard(empty, shard, marks), replica), offset)
}

// The first bytes of a text into lent bytes; those past them stay.
fn copy(text: Out, bytes: &mut [u8])
    requires { (text.length ≤ length bytes.old) × (text.length ≤ 512) }
    ensures { bytes.new ≡ take text.length text.bytes ++ drop text.length bytes.old }
{
    let from = text.bytes;
    let length = text.length;
    bytes[..length].copy_from_slice(&from[..length]);
}

// Writes a card into lent bytes: the length of its text, or why not.
pub fn write(card: Card, bytes: &mut [u8]) -> Result<u64, Refusal>
    ensures { (result ≡ written_answer card (length bytes.old)) × (bytes.new ≡ bytes_after result card bytes.old) }
{
    let packed = card_packed::pack(card);
    let numbers = packed.numbers;
    let strides = packed.strides;
    admission::check_fields(&numbers, &strides)?;
    let text = spelled(card);
    let needed = text.length;
    if bytes.len() < needed {
        return Err(Refusal::TooShort {
            needed: needed as u64,
        });
    }
    copy(text, &mut *bytes);
    Ok(needed as u64)
}
