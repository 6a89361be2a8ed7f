// Who holds what in a warp: the nine kinds of fragments of m8n8k4, both ways.
#![tactic(auto)]

mod accumulator;

ghost use Rattle.std.specs.Prelude.{◌≡◌, true, ◌+◌, ◌*◌, ◌<◌, Ok};
ghost use Rattle.fragment.specs.Kinds.{computations, high, at, place};
ghost use Rattle.fragment.specs.Fragment.{is_slot, is_place, outside, held_answer, HolderAnswer};

use answers::{Details, Numbers, Refusal};

// The kinds, and the lanes of a warp.
const KINDS: u64 = 9;

const LANES: u64 = 32;

// Of each kind: its computations, the registers of a lane, the rows and columns of its matrix.
const COMPUTATIONS: [u64; 9] = [4, 4, 4, 4, 4, 4, 1, 1, 1];

const REGISTERS: [u64; 9] = [4, 4, 4, 4, 8, 8, 1, 1, 2];

const ROWS: [u64; 9] = [8, 8, 4, 4, 8, 8, 8, 4, 8];

const COLUMNS: [u64; 9] = [4, 4, 8, 8, 8, 8, 4, 8, 8];

// A place in one of the matrices of a kind: which computation's, and its row and column.
#[derive(Clone, Copy)]
pub struct Place {
    pub computation: u64,
    pub row: u64,
    pub column: u64,
}

impl Details for Place {
    ghost use Rattle.std.specs.Prelude.{refl};
    ghost use Rattle.fragment.specs.Fragment.{place_numbers};

    ghost as_numbers = { place_numbers };

    ghost reads_back = { (λ n. record { computation = n.a; row = n.b; column = n.c }, λ x. (refl, refl)) };

    fn details(self) -> Numbers {
        answers::answer(0, self.computation, self.row, self.column)
    }
}

// A register of a lane.
#[derive(Clone, Copy)]
pub struct Slot {
    pub lane: u64,
    pub register: u64,
}

impl Details for Slot {
    ghost use Rattle.std.specs.Prelude.{refl};
    ghost use Rattle.fragment.specs.Fragment.{slot_numbers};

    ghost as_numbers = { slot_numbers };

    ghost reads_back = { (λ n. record { lane = n.a; register = n.b }, λ x. (refl, refl)) };

    fn details(self) -> Numbers {
        answers::answer(0, self.lane, self.register, 0)
    }
}

// The computations of a kind; an unknown one has none.
pub fn computations(kind: u64) -> u64
    ensures { result ≡ computations kind }
{
    if kind < KINDS {
        COMPUTATIONS[kind as usize]
    } else {
        0
    }
}

// Whether there is such a kind, such a lane and such a register.
fn is_slot(kind: u64, lane: u64, register: u64) -> bool
    ensures { result ≡ is_slot kind lane register }
{
    if kind < KINDS {
        (lane < LANES) & (register < REGISTERS[kind as usize])
    } else {
        false
    }
}

// Whether there is such a kind, such a computation, such a row and such a column.
fn is_place(kind: u64, computation: u64, row: u64, column: u64) -> bool
    ensures { result ≡ is_place kind (at computation row column) }
{
    if kind < KINDS {
        let k = kind as usize;
        (computation < COMPUTATIONS[k]) & (row < ROWS[k]) & (column < COLUMNS[k])
    } else {
        false
    }
}

// 4 for a lane of the high groups, 16 or more, else 0.
fn high(lane: u64) -> u64
    ensures { result ≡ high lane }
{
    if lane < 16 { 0 } else { 4 }
}

// The place with these numbers: a name as short as a line of the table wants.
fn at(computation: u64, row: u64, column: u64) -> Place
    ensures { result ≡ at computation row column }
{
    Place {
        computation,
        row,
        column,
    }
}

// What register i of a lane holds in kind 5: the table's entry, taken apart.
fn accumulator_place(lane: u64, i: u64) -> Place
    requires { is_slot 5 lane i ≡ true }
    ensures { result ≡ place 5 lane i }
{
    let entry = accumulator::entry(lane, i);
    at(entry / 64, entry / 8 % 8, entry % 8)
}

// What register i of a lane holds, by the kind.
fn place_held(kind: u64, lane: u64, i: u64) -> Place
    requires { is_slot kind lane i ≡ true }
    ensures { result ≡ place kind lane i }
{
    let computation = lane % 16 / 4;
    let q = lane % 4;
    let h = high(lane);
    match kind {
        0 => at(computation, q + h, i),
        1 => at(computation, i + h, q),
        2 => at(computation, q, i + h),
        3 => at(computation, i, q + h),
        4 => at(computation, q + h, i),
        5 => accumulator_place(lane, i),
        6 => at(0, lane / 4, q),
        7 => at(0, q, lane / 4),
        _ => at(0, lane / 4, 2 * q + i),
    }
}

// Refusal 14 where it names no register.
pub fn outside() -> Refusal
    ensures { result ≡ outside }
{
    Refusal::Fragment {
        lane: 0,
        register: 0,
    }
}

// What a register of a lane holds, for any numbers.
pub fn held_by(kind: u64, lane: u64, register: u64) -> Result<Place, Refusal>
    ensures { result ≡ held_answer kind lane register }
{
    if is_slot(kind, lane, register) {
        Ok(place_held(kind, lane, register))
    } else {
        Err(outside())
    }
}

// A register of lane q of a group of four lanes, 16 lanes further up if h is 4. The bounds are
// those that keep the sum small, not those of a kind.
fn in_group(group: u64, h: u64, q: u64, register: u64) -> Slot
    requires { (group < 8) × (h < 8) × (q < 8) }
    ensures { result ≡ record { lane = 4 * (group + h) + q; register = register } }
{
    Slot {
        lane: 4 * (group + h) + q,
        register,
    }
}

// The register that holds a place, by the kind: h and q are those of its lane.
fn slot_holding(kind: u64, computation: u64, row: u64, column: u64) -> Slot
    requires { is_place kind (at computation row column) ≡ true }
    ensures { HolderAnswer kind (at computation row column) (Ok result) }
{
    match kind {
        0 => in_group(computation, row & 4, row % 4, column),
        1 => in_group(computation, row & 4, column, row % 4),
        2 => in_group(computation, column & 4, row, column % 4),
        3 => in_group(computation, column & 4, column % 4, row),
        4 => in_group(computation, row & 4, row % 4, column),
        5 => in_group(
            computation,
            row & 4,
            (row & 1) + (column & 2),
            (column & 4) + (row & 2) + (column & 1),
        ),
        6 => in_group(row, 0, column, 0),
        7 => in_group(column, 0, row, 0),
        _ => in_group(row, 0, column / 2, column % 2),
    }
}

// Which register of which lane holds a place, for any numbers.
pub fn holder_of(kind: u64, computation: u64, row: u64, column: u64) -> Result<Slot, Refusal>
    ensures { HolderAnswer kind (at computation row column) result }
{
    if is_place(kind, computation, row, column) {
        Ok(slot_holding(kind, computation, row, column))
    } else {
        Err(outside())
    }
}
