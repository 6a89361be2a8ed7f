// The card of a canonical shared-memory layout, built from what is asked: the checks of request 7, then the iters of source document 001's table.
#![tactic(auto)]

ghost use Rattle.std.specs.Prelude.{◌≡◌, true, [], ◌∷◌, ◌*◌, ◌/◌, ◌≤◌, ◌<◌, Ok};
ghost use Rattle.swizzle.specs.Mode.{known_bits, mode_answer};
ghost use Rattle.card.specs.Card.{none, counted};
ghost use Rattle.canonical.specs.Rule.{layout, uses_lbo, across_rows, across_columns};
ghost use Rattle.canonical.specs.Canonical.{stride_fits, fits, in_elements, cute_of, on_m, shard_of, canonical_card, refused_by, built};
ghost use Rattle.canonical_build.specs.Clauses.{PassedChecks, longest, StridesShort};

use answers::Refusal;
use canonical::{Built, Canonical};
use card::{Card, Iter, Iters};
use swizzle::Swizzle;

// Byte strides are multiples of this, and below that.
const PIECE: u64 = 16;

const MOST_BYTES: u64 = 262144;

// m and k are at most this.
const MOST_TIMES: u64 = 8;

// T elements have so many bits.
const TOGETHER: u64 = 128;

// Whether a byte stride is permitted.
fn stride_fits(bytes: u64) -> bool
    ensures { result ≡ stride_fits bytes }
{
    (bytes % PIECE == 0) & (bytes < MOST_BYTES)
}

// Whether LBO is used: not where K-major is swizzled. Public for the crate above, which reports it.
pub fn uses_lbo(major: u64, mode: u64) -> bool
    ensures { result ≡ uses_lbo major mode }
{
    (mode == 0) | !(major == 0)
}

// Whether what is asked passes check 22.
fn is_fit(a: Canonical) -> bool
    ensures { result ≡ fits a }
{
    (a.major <= 1)
        & ((1 <= a.m) & (a.m <= MOST_TIMES))
        & ((1 <= a.k) & (a.k <= MOST_TIMES))
        & (!uses_lbo(a.major, a.mode) | stride_fits(a.lbo))
        & stride_fits(a.sbo)
}

// An extent by a stride on axis m.
fn iter(extent: u64, stride: u64) -> Iter
    requires { stride ≤ longest }
    ensures { result ≡ on_m extent stride }
{
    Iter {
        extent,
        stride: stride as i64,
        axis: card::LAST_AXIS,
    }
}

// An empty slot.
fn empty() -> Iter
    ensures { result ≡ none }
{
    Iter {
        extent: 0,
        stride: 0,
        axis: 0,
    }
}

// A byte stride in elements.
fn in_elements(bits: u64, bytes: u64) -> u64
    requires { (known_bits bits ≡ true) × (bytes < 262144) }
    ensures { (result ≡ in_elements bits bytes) × (result ≤ longest) }
{
    bytes * 8 / bits
}

// From one repeating pattern to the next across rows.
fn across_rows(a: Canonical) -> u64
    requires { PassedChecks a }
    ensures { (result ≡ across_rows a.major a.mode (in_elements a.bits a.lbo) (in_elements a.bits a.sbo)) × (result ≤ longest) }
{
    if (a.mode == 0) | (a.major == 0) {
        in_elements(a.bits, a.sbo)
    } else {
        in_elements(a.bits, a.lbo)
    }
}

// And across columns.
fn across_columns(a: Canonical) -> u64
    requires { PassedChecks a }
    ensures { (result ≡ across_columns a.major a.mode (128 / a.bits) (in_elements a.bits a.lbo) (in_elements a.bits a.sbo)) × (result ≤ longest) }
{
    if a.mode == 0 {
        return in_elements(a.bits, a.lbo);
    }
    if a.major == 0 {
        return TOGETHER / a.bits;
    }
    in_elements(a.bits, a.sbo)
}

// The iters where K-major: rows first, then columns, each CuTe mode turned round.
fn k_shard(m: u64, k: u64, t: u64, wide: u64, rows: u64, columns: u64) -> Iters
    requires { StridesShort k t wide rows columns }
    ensures { result ≡ counted (shard_of (layout (8 ∷ m ∷ []) (t ∷ 2 * k ∷ []) (wide ∷ rows ∷ []) (1 ∷ columns ∷ []))) }
{
    let at = [
        iter(m, rows),
        iter(8, wide),
        iter(2 * k, columns),
        iter(t, 1),
        empty(),
        empty(),
        empty(),
        empty(),
    ];
    Iters { at, count: 4 }
}

// And where MN-major.
fn mn_shard(m: u64, k: u64, t: u64, pieces: u64, wide: u64, rows: u64, columns: u64) -> Iters
    requires { StridesShort k t wide rows columns }
    ensures { result ≡ counted (shard_of (layout (t ∷ pieces ∷ m ∷ []) (8 ∷ k ∷ []) (1 ∷ t ∷ rows ∷ []) (wide ∷ columns ∷ []))) }
{
    let at = [
        iter(m, rows),
        iter(pieces, t),
        iter(t, 1),
        iter(k, columns),
        iter(8, wide),
        empty(),
        empty(),
        empty(),
    ];
    Iters { at, count: 5 }
}

// The shard of the layout.
fn shard(a: Canonical) -> Iters
    requires { PassedChecks a }
    ensures { result ≡ counted (shard_of (cute_of a)) }
{
    let t = TOGETHER / a.bits;
    let pieces = 1 << a.mode;
    let wide = pieces * t;
    let rows = across_rows(a);
    let columns = across_columns(a);
    if a.major == 0 {
        k_shard(a.m, a.k, t, wide, rows, columns)
    } else {
        mn_shard(a.m, a.k, t, pieces, wide, rows, columns)
    }
}

// The card, under the mode's swizzle.
fn card_of(a: Canonical, swizzle: Swizzle) -> Card
    requires { PassedChecks a × (mode_answer a.bits a.mode ≡ Ok swizzle) }
    ensures { result ≡ canonical_card a }
{
    let none = empty();
    let replica = Iters {
        at: [none; 8],
        count: 0,
    };
    Card {
        shard: shard(a),
        marks: [false; 8],
        replica,
        offset: [0; 8],
        lengths: [1, 1, 1, 1, 1, 1, 1, a.length],
        swizzle,
    }
}

// A refusal, with a card of zeros.
fn refuse(refusal: Refusal) -> Built
    ensures { result ≡ refused_by refusal }
{
    let none = empty();
    let iters = Iters {
        at: [none; 8],
        count: 0,
    };
    let card = Card {
        shard: iters,
        marks: [false; 8],
        replica: iters,
        offset: [0; 8],
        lengths: [0; 8],
        swizzle: Swizzle { m: 0, b: 0, s: 0 },
    };
    Built {
        answer: Err(refusal),
        card,
    }
}

// The card of what is asked: bits and mode are judged first, 6, then the rest, 22.
pub fn build(a: Canonical) -> Built
    ensures { result ≡ built a }
{
    let chosen = swizzle::swizzle_of_mode(a.bits, a.mode);
    match chosen {
        Ok(swizzle) => {
            if !is_fit(a) {
                return refuse(Refusal::Canonical);
            }
            let card = card_of(a, swizzle);
            Built {
                answer: Ok(()),
                card,
            }
        }
        Err(refusal) => refuse(refusal),
    }
}
