// The further kinds of warp fragments, m16n8, wgmma and ldmatrix: a table of PTX's rules, each kind a layout. There are no functions.
#![tactic(auto)]

use answers::{Details, Numbers, Refusal};
use card::Card;

// A kind in six numbers: so many elements of a lane lie next to each other, in one half of the rows or in two, repeated so many times along
// the columns, in so many matrices, over so many warps; turned, rows and columns are exchanged.
#[derive(Clone, Copy)]
pub struct KindForm {
    pub next: u64,
    pub halves: u64,
    pub repeats: u64,
    pub matrices: u64,
    pub warps: u64,
    // a part of the form, no flag of the others
    pub turned: bool,
}

// A place in one of the matrices of a kind.
#[derive(Clone, Copy)]
pub struct MmaPlace {
    pub matrix: u64,
    pub row: u64,
    pub column: u64,
}

impl Details for MmaPlace {
    ghost use Rattle.std.specs.Prelude.{refl};
    ghost use Rattle.mma_kinds.specs.Mma.{mma_place_numbers};

    ghost as_numbers = { mma_place_numbers };

    ghost reads_back = { (λ n. record { matrix = n.a; row = n.b; column = n.c }, λ x. (refl, refl)) };

    fn details(self) -> Numbers {
        answers::answer(0, self.matrix, self.row, self.column)
    }
}

// A register of a lane of a warp: registers are counted as PTX counts them, one an element.
#[derive(Clone, Copy)]
pub struct MmaSlot {
    pub warp: u64,
    pub lane: u64,
    pub register: u64,
}

impl Details for MmaSlot {
    ghost use Rattle.std.specs.Prelude.{refl};
    ghost use Rattle.mma_kinds.specs.Mma.{mma_slot_numbers};

    ghost as_numbers = { mma_slot_numbers };

    ghost reads_back = { (λ n. record { warp = n.a; lane = n.b; register = n.c }, λ x. (refl, refl)) };

    fn details(self) -> Numbers {
        answers::answer(0, self.warp, self.lane, self.register)
    }
}

// The answer to a kind's layout, and its card beside it.
#[derive(Clone, Copy)]
pub struct MmaLayout {
    pub answer: Result<(), Refusal>,
    pub card: Card,
}
