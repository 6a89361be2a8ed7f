// The vocabulary of answers: flat index and cell number as kinds of their own, the refusals, and the plain numbers in which an answer leaves the library.
#![tactic(auto)]

ghost use Rattle.std.specs.Prelude.{◌≡◌, refl};
ghost use Rattle.answers.specs.Refusals.{answer, refusal_numbers, just_zero, one_detail, numbers_of};
ghost use Rattle.answers.specs.Pinned.{ReadBack};

// The flat index of an element.
#[derive(Clone, Copy)]
pub struct Flat(pub u64);

// The number of a cell.
#[derive(Clone, Copy)]
pub struct Cell(pub u64);

// Why the desk says no, in the order of the refusals' numbers, 1 to 23.
#[derive(Clone, Copy)]
pub enum Refusal {
    // 1: shard or replica iter count outside limits
    Counts,
    // 2: an extent, stride or offset outside limits
    Limits,
    // 3: an axis above 7
    Axis,
    // 4: a length outside limits, or too many cells
    Space,
    // 5: too many elements or copies
    TooMany,
    // 6: swizzle numbers, bits or mode not allowed
    Swizzle,
    // 7: a copy lies outside the space
    CopyOutside { flat: Flat, axis: u64 },
    // 8: two elements share a cell
    Shared { x: Flat, y: Flat, cell: Cell },
    // 9: shape not admitted
    Shape,
    // 10: a coordinate outside its dimension
    Coordinate,
    // 11: lent memory too short
    TooShort { needed: u64 },
    // 12: asked cell coordinate outside the space
    CellOutside { axis: u64 },
    // 13: mask M or N not allowed
    MaskSize,
    // 14: unknown fragment kind, or a number outside it; or a value of the wrong sort, in this register of this lane
    Fragment { lane: u64, register: u64 },
    // 15: reserved descriptor bits set
    Reserved,
    // 16: mask shift above its limit
    Shift { limit: u64 },
    // 17: two replica combinations give the same sum on every axis
    Idle { a: u64, b: u64 },
    // 18: a text that is not of the notation
    Notation { beginning: u64 },
    // 19: a block whose check is wrong
    WrongCheck,
    // 20: a note too long, or an unused byte of a block that is not zero
    Unused,
    // 21: a plan's first copy outside, its index plus 1; or 0, and the first cell that it leaves wrong
    Plan { copy: u64, cell: Cell },
    // 22: major-ness, m, k or a byte stride of a canonical layout not allowed
    Canonical,
    // 23: a cell that both layouts occupy
    Overlap { cell: Cell },
}

// An answer as plain numbers: its number and three details.
#[derive(Clone, Copy)]
pub struct Numbers {
    pub number: u64,
    pub a: u64,
    pub b: u64,
    pub c: u64,
}

// An answer's number with its details.
pub fn answer(number: u64, a: u64, b: u64, c: u64) -> Numbers
    ensures { result ≡ answer number a b c }
{
    Numbers { number, a, b, c }
}

// The number and the details of a refusal.
pub fn refusal_numbers(refusal: Refusal) -> Numbers
    ensures { result ≡ refusal_numbers refusal }
{
    match refusal {
        Refusal::Counts => answer(1, 0, 0, 0),
        Refusal::Limits => answer(2, 0, 0, 0),
        Refusal::Axis => answer(3, 0, 0, 0),
        Refusal::Space => answer(4, 0, 0, 0),
        Refusal::TooMany => answer(5, 0, 0, 0),
        Refusal::Swizzle => answer(6, 0, 0, 0),
        Refusal::CopyOutside { flat, axis } => answer(7, flat.0, axis, 0),
        Refusal::Shared { x, y, cell } => answer(8, x.0, y.0, cell.0),
        Refusal::Shape => answer(9, 0, 0, 0),
        Refusal::Coordinate => answer(10, 0, 0, 0),
        Refusal::TooShort { needed } => answer(11, needed, 0, 0),
        Refusal::CellOutside { axis } => answer(12, axis, 0, 0),
        Refusal::MaskSize => answer(13, 0, 0, 0),
        Refusal::Fragment { lane, register } => answer(14, lane, register, 0),
        Refusal::Reserved => answer(15, 0, 0, 0),
        Refusal::Shift { limit } => answer(16, limit, 0, 0),
        Refusal::Idle { a, b } => answer(17, a, b, 0),
        Refusal::Notation { beginning } => answer(18, beginning, 0, 0),
        Refusal::WrongCheck => answer(19, 0, 0, 0),
        Refusal::Unused => answer(20, 0, 0, 0),
        Refusal::Plan { copy, cell } => answer(21, copy, cell.0, 0),
        Refusal::Canonical => answer(22, 0, 0, 0),
        Refusal::Overlap { cell } => answer(23, cell.0, 0, 0),
    }
}

// What a question answers where it does not refuse: number 0 and up to three details, which tell any two such values apart.
pub trait Details {
    ghost use Rattle.answers.specs.declared.Numbers.{Numbers};

    ghost as_numbers: { Self → Numbers };

    // one for each type, since each has fields of its own
    fn details(self) -> Numbers
        ensures { result ≡ as_numbers self };

    ghost reads_back: { ReadBack as_numbers };
}

// Nothing beside the number 0.
impl Details for () {
    ghost as_numbers = { just_zero };

    ghost reads_back = { (λ n. tt, λ done. (refl, refl)) };

    fn details(self) -> Numbers {
        answer(0, 0, 0, 0)
    }
}

// One number: an address, an entry, a length or a count.
impl Details for u64 {
    ghost as_numbers = { one_detail };

    ghost reads_back = { (λ n. n.a, λ x. (refl, refl)) };

    fn details(self) -> Numbers {
        answer(0, self, 0, 0)
    }
}

// The plain numbers of an answer: its details at number 0, or its refusal's.
pub fn in_numbers<T: Details>(given: Result<T, Refusal>) -> Numbers
    ensures { result ≡ numbers_of T.as_numbers given }
{
    match given {
        Ok(value) => value.details(),
        Err(refusal) => refusal_numbers(refusal),
    }
}
