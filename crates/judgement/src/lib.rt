// What a layout card comes to, in the order of checks: the answers of the verdict and of the owner of a cell, and demand 3. There are no functions.
#![tactic(auto)]

use answers::{Details, Numbers};

// The answer to the verdict: elements, occupied cells and cells of an approved card.
#[derive(Clone, Copy)]
pub struct Approved {
    pub elements: u64,
    pub occupied: u64,
    pub cells: u64,
}

impl Details for Approved {
    ghost use Rattle.std.specs.Prelude.{refl};
    ghost use Rattle.judgement.specs.Verdict.{approved_numbers};

    ghost as_numbers = { approved_numbers };

    ghost reads_back = { (λ n. record { elements = n.a; occupied = n.b; cells = n.c }, λ x. (refl, refl)) };

    fn details(self) -> Numbers {
        answers::answer(0, self.elements, self.occupied, self.cells)
    }
}
