// The further kinds of warp fragments: what a register holds, which register holds a place, and a kind's layout as a card.
#![tactic(auto)]

mod rows;

ghost use Rattle.std.specs.Prelude.{◌≡◌, ◌+◌, ◌*◌, ◌/◌, ◌%◌, ◌≤◌, ◌<◌};
ghost use Rattle.mma_kinds.specs.Kinds.{mma_at};
ghost use Rattle.mma_kinds.specs.Mma.{mma_answer, MmaHolderAnswer, layout_answer};
ghost use Rattle.mma_kinds.specs.Forms.{held_in};
ghost use Rattle.mma_cards.specs.Clauses.{FormSound};
ghost use Rattle.mma.specs.Clauses.{form_slot, place_in, form_holder};

use answers::Refusal;
use mma_kinds::{KindForm, MmaLayout, MmaPlace, MmaSlot};

// The lanes of a warp.
const LANES: u64 = 32;

// The elements of a lane in one half of the rows and in the other, of one repeat.
fn tall(f: KindForm) -> u64
    requires { FormSound f }
    ensures { (result ≡ f.halves * f.next) × (1 ≤ result) × (result ≤ 16) }
{
    f.halves * f.next
}

// And of all repeats: those of one matrix.
fn wide(f: KindForm) -> u64
    requires { FormSound f }
    ensures { (result ≡ f.repeats * (f.halves * f.next)) × (1 ≤ result) × (result ≤ 512) }
{
    f.repeats * (f.halves * f.next)
}

// The registers of a lane.
fn registers(f: KindForm) -> u64
    requires { FormSound f }
    ensures { (result ≡ f.matrices * (f.repeats * (f.halves * f.next))) × (result ≤ 2048) }
{
    f.matrices * (f.repeats * (f.halves * f.next))
}

// Whether a form has such a warp, such a lane and such a register.
fn is_slot(f: KindForm, warp: u64, lane: u64, register: u64) -> bool
    requires { FormSound f }
    ensures { result ≡ form_slot f warp lane register }
{
    (warp < f.warps) & (lane < LANES) & (register < registers(f))
}

// How far down a matrix reaches, and how far across.
fn length_down(f: KindForm) -> u64
    requires { FormSound f }
    ensures { result ≡ f.warps * (f.halves * 8) }
{
    f.warps * (f.halves * 8)
}

fn length_across(f: KindForm) -> u64
    requires { FormSound f }
    ensures { result ≡ f.repeats * (4 * f.next) }
{
    f.repeats * (4 * f.next)
}

// Whether a form has such a matrix, such a row and such a column.
fn is_place(f: KindForm, matrix: u64, row: u64, column: u64) -> bool
    requires { FormSound f }
    ensures { result ≡ place_in f (mma_at matrix row column) }
{
    let down = length_down(f);
    let across = length_across(f);
    if f.turned {
        return (matrix < f.matrices) & (row < across) & (column < down);
    }
    (matrix < f.matrices) & (row < down) & (column < across)
}

// A digit of a number, and a number from a digit and what comes after it.
fn digit(n: u64, by: u64, size: u64) -> u64
    requires { (1 ≤ by) × (1 ≤ size) × (size ≤ 64) }
    ensures { (result ≡ n / by % size) × (result ≤ 63) }
{
    n / by % size
}

fn step(digit: u64, by: u64, rest: u64) -> u64
    requires { (digit ≤ 64) × (by ≤ 512) × (rest ≤ 1048576) }
    ensures { (result ≡ digit * by + rest) × (result ≤ 32768 + rest) }
{
    digit * by + rest
}

// How far down what a register holds is, and how far across.
fn down_of(f: KindForm, warp: u64, lane: u64, i: u64) -> u64
    requires form_sound { FormSound f }
    requires warp_bound { (warp ≤ 63) × (lane < 32) }
    ensures { result ≡ warp * (f.halves * 8) + (i / f.next % f.halves * 8 + lane / 4) }
{
    let half = digit(i, f.next, f.halves);
    step(warp, f.halves * 8, step(half, 8, lane / 4))
}

fn across_of(f: KindForm, lane: u64, i: u64) -> u64
    requires { FormSound f }
    ensures { result ≡ i / (f.halves * f.next) % f.repeats * (4 * f.next) + (lane % 4 * f.next + i / 1 % f.next) }
{
    let repeat = digit(i, tall(f), f.repeats);
    let next = digit(i, 1, f.next);
    step(repeat, 4 * f.next, step(lane % 4, f.next, next))
}

// What register i of a lane of a warp holds.
fn place_held(f: KindForm, warp: u64, lane: u64, i: u64) -> MmaPlace
    requires form_sound { FormSound f }
    requires warp_bound { (warp ≤ 63) × (lane < 32) }
    ensures { result ≡ held_in f warp lane i }
{
    let matrix = digit(i, wide(f), f.matrices);
    let down = down_of(f, warp, lane, i);
    let across = across_of(f, lane, i);
    if f.turned {
        return MmaPlace {
            matrix,
            row: across,
            column: down,
        };
    }
    MmaPlace {
        matrix,
        row: down,
        column: across,
    }
}

// The register that holds what is so far down and so far across in a matrix.
fn register_of(f: KindForm, matrix: u64, down: u64, across: u64) -> u64
    requires form_sound { FormSound f }
    requires matrix_bound { matrix ≤ 63 }
    ensures { result ≡ matrix * (f.repeats * (f.halves * f.next)) + (across / (4 * f.next) % f.repeats * (f.halves * f.next) + (down / 8 % f.halves * f.next + across / 1 % f.next)) }
{
    let repeat = digit(across, 4 * f.next, f.repeats);
    let half = digit(down, 8, f.halves);
    let next = digit(across, 1, f.next);
    step(
        matrix,
        wide(f),
        step(repeat, tall(f), step(half, f.next, next)),
    )
}

// And its warp and lane.
fn slot_holding(f: KindForm, matrix: u64, down: u64, across: u64) -> MmaSlot
    requires form_sound { FormSound f }
    requires matrix_bound { matrix ≤ 63 }
    ensures { result ≡ form_holder f matrix down across }
{
    let warp = digit(down, f.halves * 8, f.warps);
    let thread = digit(across, f.next, 4);
    let register = register_of(f, matrix, down, across);
    MmaSlot {
        warp,
        lane: down % 8 * 4 + thread,
        register,
    }
}

// What a register of a lane of a warp holds, for any numbers.
pub fn held_by(kind: u64, warp: u64, lane: u64, register: u64) -> Result<MmaPlace, Refusal>
    ensures { result ≡ mma_answer kind warp lane register }
{
    if !rows::is_kind(kind) {
        return Err(fragment::outside());
    }
    let f = rows::form(kind);
    if !is_slot(f, warp, lane, register) {
        return Err(fragment::outside());
    }
    Ok(place_held(f, warp, lane, register))
}

// Which register of which lane of which warp holds a place, for any numbers.
pub fn holder_of(kind: u64, matrix: u64, row: u64, column: u64) -> Result<MmaSlot, Refusal>
    ensures { MmaHolderAnswer kind (mma_at matrix row column) result }
{
    if !rows::is_kind(kind) {
        return Err(fragment::outside());
    }
    let f = rows::form(kind);
    if !is_place(f, matrix, row, column) {
        return Err(fragment::outside());
    }
    if f.turned {
        return Ok(slot_holding(f, matrix, column, row));
    }
    Ok(slot_holding(f, matrix, row, column))
}

// The layout of any kind, as a card.
pub fn layout_of(kind: u64) -> MmaLayout
    ensures { result ≡ layout_answer kind }
{
    if !rows::is_kind(kind) {
        let card = mma_cards::zeros();
        return MmaLayout {
            answer: Err(fragment::outside()),
            card,
        };
    }
    let f = rows::form(kind);
    let card = mma_cards::card(f, tall(f), wide(f), registers(f));
    MmaLayout {
        answer: Ok(()),
        card,
    }
}
