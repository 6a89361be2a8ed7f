// Banks of shared memory: what the line and the bank in which an element begins come to, and the columns that do not collide there.
// From a swizzled piece's group and its column the row is read back, modulo eight, by one formula over B (row_told), so that two rows with one group are one:
// no mode is looked at by itself, and nothing is computed over a table. EightGroups names the group of each row, and so says where a piece is as well as that
// two are apart.
#![tactic(auto)]

use answers::{Details, Numbers};

// A bank word: its line, and its bank there.
#[derive(Clone, Copy)]
pub struct BankWord {
    pub line: u64,
    pub bank: u64,
}

impl Details for BankWord {
    ghost use Rattle.std.specs.Prelude.{refl};
    ghost use Rattle.banks_judged.specs.Bank.{word_numbers};

    ghost as_numbers = { word_numbers };

    ghost reads_back = { (λ n. record { line = n.a; bank = n.b }, λ x. (refl, refl)) };

    fn details(self) -> Numbers {
        answers::answer(0, self.line, self.bank, 0)
    }
}
