// The columns of a zero-column mask as words of 64 bits, made from runs.
#![tactic(auto)]

ghost use Rattle.std.specs.Prelude.{◌≡◌, Bool, true, false, cond, ℕ, ◌+◌, ◌-◌, ◌*◌, ◌/◌, ◌%◌, ◌^◌, ◌<◌, ◌≤◌, min, eqb, get_or};
ghost use Rattle.std.specs.Int.Count.{count_trailing_zeros};
ghost use Rattle.mask_pattern.specs.Pattern.{endless, column, columns_number, zeroed, first_used};

use descriptor::Fields;

// A word of as many ones as there are columns from one up to an end, all of its 64 where there are more.
fn ones_up_to(from: u64, end: u64) -> u64
    ensures { result ≡ 2 ^ min (end - from) 64 - 1 }
{
    if end <= from {
        0
    } else if end - from < 64 {
        (1u64 << (end - from)) - 1
    } else {
        18446744073709551615
    }
}

// The first 64 columns of the endless pattern, the set ones first: one period, doubled until it fills the word.
fn pattern_word(skip: u64, used: u64) -> u64
    requires { (skip < 256) × (used < 256) }
    ensures { result ≡ columns_number (endless true skip used) 0 64 }
{
    let mut word = ones_up_to(0, skip + 1);
    let mut filled = skip + 1 + (used + 1);
    // no plainer as a `for`: what is filled doubles each turn
    while filled < 64 {
        word += word << filled;
        filled += filled;
    }
    word
}

// 64 columns of that pattern from this column of a period on: what is left of the period, and the pattern anew.
fn word_from(skip: u64, used: u64, at: u64, pattern: u64) -> u64
    requires { (skip < 256) × (used < 256) × (at < skip + 1 + (used + 1)) × (pattern ≡ columns_number (endless true skip used) 0 64) }
    ensures { result ≡ columns_number (endless true skip used) at 64 }
{
    let lead = ones_up_to(at, skip + 1);
    let rest = skip + 1 + (used + 1) - at;
    if rest < 64 {
        lead + (pattern << rest)
    } else {
        lead
    }
}

// Where in the period of that pattern column q of an endless pattern lies.
fn place(first: bool, skip: u64, used: u64, q: u64) -> u64
    requires { (skip < 256) × (used < 256) × (q < 512) }
    ensures { (result < skip + 1 + (used + 1)) × ((k : ℕ) → endless true skip used (result + k) ≡ endless first skip used (q + k)) }
{
    if first {
        q % (skip + 1 + (used + 1))
    } else {
        (skip + 1 + q) % (skip + 1 + (used + 1))
    }
}

// So many columns from column p on, all of one sub-mask: the pattern from the place of the first of them.
// The start counts and first spans are lent, so that they are not copied for each piece.
fn piece(
    size: u64,
    skip: u64,
    used: u64,
    counts: &[u8; 4],
    spans: &[bool; 4],
    pattern: u64,
    p: u64,
    count: u64,
) -> u64
    requires { (p < 4 * size) × (size ≤ 256) × (skip < 256) × (used < 256) × (pattern ≡ columns_number (endless true skip used) 0 64) × (count ≤ 64) × (p % size + count ≤ size) }
    ensures { result ≡ columns_number (λ q. endless (get_or spans.now (q / size) false) skip used (get_or counts.now (q / size) 0 + q % size)) p count }
{
    let sub_mask = (p / size) as usize;
    let first = spans[sub_mask];
    let start = counts[sub_mask] as u64;
    let at = place(first, skip, used, start + p % size);
    word_from(skip, used, at, pattern) & ones_up_to(0, count)
}

// So many columns from column p on as a word: a piece of each sub-mask that they lie in.
fn mask_word(
    size: u64,
    skip: u64,
    used: u64,
    counts: &[u8; 4],
    spans: &[bool; 4],
    pattern: u64,
    p: u64,
    count: u64,
) -> u64
    requires { (p + count ≤ 4 * size) × (size ≤ 256) × (skip < 256) × (used < 256) × (pattern ≡ columns_number (endless true skip used) 0 64) × (count ≤ 64) }
    ensures { result ≡ columns_number (λ q. endless (get_or spans.now (q / size) false) skip used (get_or counts.now (q / size) 0 + q % size)) p count }
{
    let mut word: u64 = 0;
    let mut k: u64 = 0;
    // no plainer as a `for`: a step goes to the end of its sub-mask
    while k < count {
        let step = (size - (p + k) % size).min(count - k);
        word += piece(size, skip, used, counts, spans, pattern, p + k, step) << k;
        k += step;
    }
    word
}

// The columns of a mask as words, how many of them are zeroed, and the first that is used.
#[derive(Clone, Copy)]
pub struct Words {
    pub at: [u64; 4],
    pub zeroed: u64,
    pub first_used: u64,
}

// The first used column of those up to and with a word, whose columns start at column p, from the first of
// those before it. The columns that a short word lacks are clear in it, so that its trailing zeros end there.
fn first_used(before: u64, p: u64, word: u64) -> u64
    requires { p ≤ 256 }
    ensures { result ≡ cond (eqb before p) (p + count_trailing_zeros 64 (18446744073709551615 - word)) before }
{
    if before == p {
        p + u64::trailing_zeros(!word) as u64
    } else {
        before
    }
}

// The words of n columns where the non-zero mask is 1; the last may be short. What they say is counted as
// they are made.
fn pattern_words(
    size: u64,
    skip: u64,
    used: u64,
    counts: &[u8; 4],
    spans: &[bool; 4],
    n: u64,
) -> Words
    requires { (n ≤ 4 * size) × (size ≤ 256) × (skip < 256) × (used < 256) × (n ≤ 256) }
    ensures { (let set : ℕ → Bool = λ q. endless (get_or spans.now (q / size) false) skip used (get_or counts.now (q / size) 0 + q % size) in (result.zeroed ≡ zeroed set 0 n) × (result.first_used ≡ first_used set 0 n) × ((i : ℕ) → 64 * i < n → get_or result.at i 0 ≡ columns_number set (64 * i) (min (n - 64 * i) 64))) }
{
    let pattern = pattern_word(skip, used);
    let mut at = [0u64; 4];
    let mut zeroed: u64 = 0;
    let mut first: u64 = 0;
    for p in (0..n).step_by(64) {
        let count = (n - p).min(64);
        let word = mask_word(size, skip, used, counts, spans, pattern, p, count);
        at[(p / 64) as usize] = word;
        zeroed += u64::count_ones(word) as u64;
        first = first_used(first, p, word);
    }
    Words {
        at,
        zeroed,
        first_used: first,
    }
}

// The words of n columns of a mask: where the non-zero mask is 0 all are clear, and no pattern is made.
// Public, with a requires, for the crate above.
pub fn words_of(size: u64, fields: Fields, n: u64) -> Words
    requires { (n ≤ 4 * size) × (size ≤ 256) × (n ≤ 256) }
    ensures { (result.zeroed ≡ zeroed (column size fields) 0 n) × (result.first_used ≡ first_used (column size fields) 0 n) × ((i : ℕ) → 64 * i < n → get_or result.at i 0 ≡ columns_number (column size fields) (64 * i) (min (n - 64 * i) 64)) }
{
    if !fields.non_zero {
        return Words {
            at: [0; 4],
            zeroed: 0,
            first_used: 0,
        };
    }
    let counts = fields.start_counts;
    let spans = fields.first_spans;
    pattern_words(
        size,
        fields.skip_span as u64,
        fields.use_span as u64,
        &counts,
        &spans,
        n,
    )
}
