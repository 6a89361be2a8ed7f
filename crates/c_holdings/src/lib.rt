// Holdings in a caller's array, four numbers of 64 bits to a lane: dealt and collected field by field, as bits. Public, with a requires, only
// for the crate above, whose arrays are as long as said.
#![tactic(auto)]

ghost use Rattle.std.specs.Prelude.{◌≡◌, [], ◌/◌, ◌%◌, ◌<◌, length, get_or, set};
ghost use Rattle.values.specs.Rows.{entry};
ghost use Rattle.values.specs.Values.{dealt, collected};
ghost use Rattle.c_bits.specs.Bits.{rows_from, empties, sort_after, single_after, double_after, entries_after, register_for, register_number, held_at, lanes_from, numbers_after};

use c_bits::Bits;

// The register of a lane that is dealt to a field of its holding; 8 where the kind does not deal to it.
fn register_for(kind: u64, k: usize) -> usize
    ensures { result ≡ register_number kind k }
{
    if kind == 6 {
        if k == 0 {
            return 0;
        }
        return 8;
    }
    if kind == 7 {
        if k == 1 {
            return 0;
        }
        return 8;
    }
    if k == 2 {
        return 0;
    }
    if k == 3 {
        return 1;
    }
    8
}

// What a field of the holdings is dealt, the fields counted through them: empty where the kind does not deal to it.
fn dealt_to_field(
    kind: u64,
    computation: u64,
    sorts: &[u8],
    singles: &[u32],
    doubles: &[u64],
    j: usize,
) -> Bits
    requires lt_kind { (4 < kind) × (j < 128) }
    requires sorts_len { (length sorts.now ≡ 64) × (length singles.now ≡ 64) × (length doubles.now ≡ 64) }
    ensures { result ≡ register_for kind (get_or (dealt Bits.Empty kind computation (rows_from 8 sorts.now singles.now doubles.now) (empties 32)) (j / 4) []) (j % 4) }
{
    let i = register_for(kind, j % 4);
    if i < 8 {
        return c_registers::dealt_at(kind, computation, sorts, singles, doubles, 8 * (j / 4) + i);
    }
    Bits::Empty
}

// A double written to a number, and nothing where the register has none.
fn put_double(register: Bits, numbers: &mut [u64], j: usize)
    requires { j < length numbers.old }
    ensures { numbers.new ≡ set numbers.old j (double_after register (get_or numbers.old j 0)) }
{
    match register {
        Bits::Empty => {}
        Bits::Single(_) => {}
        Bits::Double(double) => {
            numbers[j] = double;
        }
    }
}

// A tile dealt to empty lanes, and their registers written to the fields of the holdings that are the kind's own.
pub fn deal_holdings(
    kind: u64,
    computation: u64,
    sorts: &[u8],
    singles: &[u32],
    doubles: &[u64],
    numbers: &mut [u64],
)
    requires lt_kind { (4 < kind) × (length numbers.old ≡ 128) }
    requires sorts_len { (length sorts.now ≡ 64) × (length singles.now ≡ 64) × (length doubles.now ≡ 64) }
    ensures { numbers.new ≡ numbers_after kind (dealt Bits.Empty kind computation (rows_from 8 sorts.now singles.now doubles.now) (empties 32)) numbers.old }
{
    for j in 0..128 {
        let register = dealt_to_field(kind, computation, sorts, singles, doubles, j);
        put_double(register, numbers, j);
    }
}

// A register that a lane has for a kind: A for kind 6, B for kind 7, the two accumulators else.
fn register_held(kind: u64, numbers: &[u64], lane: usize, i: usize) -> Bits
    requires { (lane < 32) × (length numbers.now ≡ 128) }
    ensures { result ≡ get_or (held_at kind numbers.now lane) i Bits.Empty }
{
    if kind == 6 {
        if i == 0 {
            return Bits::Double(numbers[4 * lane]);
        }
        return Bits::Empty;
    }
    if kind == 7 {
        if i == 0 {
            return Bits::Double(numbers[4 * lane + 1]);
        }
        return Bits::Empty;
    }
    if i == 0 {
        return Bits::Double(numbers[4 * lane + 2]);
    }
    if i == 1 {
        return Bits::Double(numbers[4 * lane + 3]);
    }
    Bits::Empty
}

// What a place is collected from the holdings: empty where it lies outside the matrix.
fn collected_from(kind: u64, computation: u64, numbers: &[u64], j: usize) -> Bits
    requires { (j < 64) × (length numbers.now ≡ 128) }
    ensures { result ≡ entry Bits.Empty (collected Bits.Empty kind computation (lanes_from kind numbers.now) (empties 8)) (j / 8) (j % 8) }
{
    let from = dealing_moves::holder(kind, computation, j as u64 / 8, j as u64 % 8) as usize;
    if from < 256 {
        return register_held(kind, numbers, from / 8, from % 8);
    }
    Bits::Empty
}

// An empty tile collected from the holdings, and it written.
pub fn collect_holdings(
    kind: u64,
    computation: u64,
    numbers: &[u64],
    sorts: &mut [u8],
    singles: &mut [u32],
    doubles: &mut [u64],
)
    requires numbers_len { length numbers.now ≡ 128 }
    requires sorts_len { (length sorts.old ≡ 64) × (length singles.old ≡ 64) × (length doubles.old ≡ 64) }
    ensures sorts_after { sorts.new ≡ entries_after sort_after (collected Bits.Empty kind computation (lanes_from kind numbers.now) (empties 8)) sorts.old }
    ensures singles_after { singles.new ≡ entries_after single_after (collected Bits.Empty kind computation (lanes_from kind numbers.now) (empties 8)) singles.old }
    ensures doubles_after { doubles.new ≡ entries_after double_after (collected Bits.Empty kind computation (lanes_from kind numbers.now) (empties 8)) doubles.old }
{
    c_registers::write(sorts, singles, doubles, |j| {
        collected_from(kind, computation, numbers, j)
    });
}
