// What a stretch of a lent owner table comes to, in the order of checks: the cells under one prefix of axis coordinates. There are no functions.
#![tactic(auto)]

use answers::{Cell, Details, Numbers};

// The answer to a stretch of the table.
#[derive(Clone, Copy)]
pub struct Stretch {
    pub first: Cell,
    pub length: u64,
}

impl Details for Stretch {
    ghost use Rattle.std.specs.Prelude.{refl};
    ghost use Rattle.stretch_judged.specs.Stretch.{found_numbers};

    ghost as_numbers = { found_numbers };

    ghost reads_back = { (λ n. record { first = record { 0 = n.a }; length = n.b }, λ x. (refl, refl)) };

    fn details(self) -> Numbers {
        answers::answer(0, self.first.0, self.length, 0)
    }
}
