// The card of a further kind of fragment, from its six numbers: an iter of extent 1 does not stand.
#![tactic(auto)]

ghost use Rattle.std.specs.Prelude.{◌≡◌, List, [], ◌∷◌, ◌++◌, ◌+◌, ◌*◌, ◌≤◌, ◌<◌, pos, length};
ghost use Rattle.card.specs.Card.{counted, none, no_card};
ghost use Rattle.card.specs.declared.Iter.{Iter};
ghost use Rattle.mma_kinds.specs.Layouts.{cut, down, across, form_iters};
ghost use Rattle.mma_cards.specs.Clauses.{FormSound, Follows, form_card};

use card::{Card, Iter, Iters};
use mma_kinds::KindForm;
use swizzle::Swizzle;

// The axes warpid, laneid and m.
const WARPS: u64 = 1;

const LANES: u64 = 2;

const REGISTERS: u64 = 7;

// No iters.
fn empty() -> Iters
    ensures { result ≡ counted [] }
{
    let none = Iter {
        extent: 0,
        stride: 0,
        axis: 0,
    };
    Iters {
        at: [none; 8],
        count: 0,
    }
}

// An iter whose stride is not below zero.
fn iter(extent: u64, stride: u64, axis: u64) -> Iter
    requires { stride ≤ 65535 }
    ensures { result ≡ record { extent = extent; stride = pos stride; axis = axis } }
{
    Iter {
        extent,
        stride: stride as i64,
        axis,
    }
}

// One more iter, unless its extent is 1.
fn push(iters: Iters, extent: u64, stride: u64, axis: u64) -> Iters
    requires { (iters.count < 8) × (stride ≤ 65535) }
    ensures { (result.count ≤ iters.count + 1) × Follows iters result (record { extent = extent; stride = pos stride; axis = axis } ∷ []) }
{
    if extent == 1 {
        return iters;
    }
    let mut at = iters.at;
    at[iters.count as usize] = iter(extent, stride, axis);
    Iters {
        at,
        count: iters.count + 1,
    }
}

// The iters down a matrix, and those across it.
fn push_down(iters: Iters, f: KindForm) -> Iters
    requires form_sound { FormSound f }
    requires count_bound { iters.count ≤ 4 }
    ensures { (result.count ≤ iters.count + 3) × Follows iters result (down f) }
{
    let one = push(iters, f.warps, 1, WARPS);
    let two = push(one, f.halves, f.next, REGISTERS);
    push(two, 8, 4, LANES)
}

fn push_across(iters: Iters, f: KindForm, tall: u64) -> Iters
    requires form_sound { FormSound f }
    requires count_bound { (iters.count ≤ 4) × (tall ≡ f.halves * f.next) × (tall ≤ 16) }
    ensures { (result.count ≤ iters.count + 3) × Follows iters result (across f) }
{
    let one = push(iters, f.repeats, tall, REGISTERS);
    let two = push(one, 4, 1, LANES);
    push(two, f.next, 1, REGISTERS)
}

// The shard: the iters of the matrix, then of the row, then of the column.
fn shard(f: KindForm, tall: u64, wide: u64) -> Iters
    requires form_sound { FormSound f }
    requires tall_value { (tall ≡ f.halves * f.next) × (tall ≤ 16) × (wide ≡ f.repeats * (f.halves * f.next)) × (wide ≤ 512) }
    ensures { result ≡ counted (cut (form_iters f)) }
{
    let matrix = push(empty(), f.matrices, wide, REGISTERS);
    if f.turned {
        return push_down(push_across(matrix, f, tall), f);
    }
    push_across(push_down(matrix, f), f, tall)
}

// The card of a form with so many registers: no marks, no replica, no offset, no swizzle. Public, with a requires, for the crate above.
pub fn card(f: KindForm, tall: u64, wide: u64, registers: u64) -> Card
    requires form_sound { FormSound f }
    requires tall_value { (tall ≡ f.halves * f.next) × (tall ≤ 16) × (wide ≡ f.repeats * (f.halves * f.next)) × (wide ≤ 512) }
    ensures { result ≡ form_card f registers }
{
    let shard = shard(f, tall, wide);
    let replica = empty();
    Card {
        shard,
        marks: [false; 8],
        replica,
        offset: [0; 8],
        lengths: [1, f.warps, 32, 1, 1, 1, 1, registers],
        swizzle: Swizzle { m: 0, b: 0, s: 3 },
    }
}

// A card of zeros.
pub fn zeros() -> Card
    ensures { result ≡ no_card }
{
    let iters = empty();
    Card {
        shard: iters,
        marks: [false; 8],
        replica: iters,
        offset: [0; 8],
        lengths: [0; 8],
        swizzle: Swizzle { m: 0, b: 0, s: 0 },
    }
}
