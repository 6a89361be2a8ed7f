// Registers in a caller's arrays: dealt and collected entry by entry, so that no array of registers is made, and moved as bits, so that a
// not-a-number keeps its pattern. Public, with a requires, only for the crates above, whose arrays are as long as said.
#![tactic(auto)]

ghost use Rattle.std.specs.Prelude.{◌≡◌, ℕ, ◌*◌, ◌/◌, ◌%◌, ◌<◌, List, length, get_or, set};
ghost use Rattle.values.specs.Rows.{entry};
ghost use Rattle.values.specs.Values.{dealt, collected};
ghost use Rattle.dealing_moves.specs.Moves.{from_rows};
ghost use Rattle.c_bits.specs.Bits.{register_at, rows_from, empties, sort_after, single_after, double_after, entries_after};

use c_bits::Bits;

// The register that an entry of three arrays is.
pub fn register_at(sorts: &[u8], singles: &[u32], doubles: &[u64], j: usize) -> Bits
    requires { (j < length sorts.now) × (j < length singles.now) × (j < length doubles.now) }
    ensures { result ≡ register_at sorts.now singles.now doubles.now j }
{
    let sort = sorts[j];
    if sort == 1 {
        return Bits::Single(singles[j]);
    }
    if sort == 2 {
        return Bits::Double(doubles[j]);
    }
    Bits::Empty
}

// The register that stands where a number says, of so many entries: empty where it is past them. How many there are is a constant, so that the
// compiler makes one test of this one and of what finds the number.
fn register_from<const N: usize>(sorts: &[u8], singles: &[u32], doubles: &[u64], s: usize) -> Bits
    requires { (length sorts.now ≡ N) × (length singles.now ≡ length sorts.now) × (length doubles.now ≡ length sorts.now) }
    ensures { (rows : ℕ) → length sorts.now ≡ 8 * rows → result ≡ from_rows Bits.Empty rows (rows_from rows sorts.now singles.now doubles.now) Bits.Empty s }
{
    if s < N {
        register_at(sorts, singles, doubles, s)
    } else {
        Bits::Empty
    }
}

// What a register is dealt, the registers counted through the lanes: empty where it is not the computation's.
pub fn dealt_at(
    kind: u64,
    computation: u64,
    sorts: &[u8],
    singles: &[u32],
    doubles: &[u64],
    n: usize,
) -> Bits
    requires lt_kind { (4 < kind) × (n < 256) }
    requires sorts_len { (length sorts.now ≡ 64) × (length singles.now ≡ 64) × (length doubles.now ≡ 64) }
    ensures { result ≡ entry Bits.Empty (dealt Bits.Empty kind computation (rows_from 8 sorts.now singles.now doubles.now) (empties 32)) (n / 8) (n % 8) }
{
    let p = dealing_moves::matrix_source(kind, computation, n as u64 / 8, n as u64 % 8) as usize;
    register_from::<64>(sorts, singles, doubles, p)
}

// A register written to an entry of three arrays: its sort and what that names, and nothing where it is empty.
pub fn put(register: Bits, sorts: &mut [u8], singles: &mut [u32], doubles: &mut [u64], j: usize)
    requires { (j < length sorts.old) × (j < length singles.old) × (j < length doubles.old) }
    ensures sorts_after { sorts.new ≡ set sorts.old j (sort_after register (get_or sorts.old j 0)) }
    ensures singles_after { singles.new ≡ set singles.old j (single_after register (get_or singles.old j 0)) }
    ensures doubles_after { doubles.new ≡ set doubles.old j (double_after register (get_or doubles.old j 0)) }
{
    match register {
        Bits::Empty => {}
        Bits::Single(single) => {
            sorts[j] = 1;
            singles[j] = single;
        }
        Bits::Double(double) => {
            sorts[j] = 2;
            doubles[j] = double;
        }
    }
}

// Entries written, each with the register that is told for it. Public, with a requires, for the crate above, which writes holdings by it.
pub fn write<F: Fn(usize) -> Bits>(
    sorts: &mut [u8],
    singles: &mut [u32],
    doubles: &mut [u64],
    register: F,
)
    requires pre { (j : ℕ) → j < length sorts.old → F.pre register j }
    requires sorts_len { (length singles.old ≡ length sorts.old) × (length doubles.old ≡ length sorts.old) }
    ensures { (rows : List (List Bits)) → ((j : ℕ) (r : Bits) → j < length sorts.old → F.post register j r → r ≡ entry Bits.Empty rows (j / 8) (j % 8)) → (sorts.new ≡ entries_after sort_after rows sorts.old) × (singles.new ≡ entries_after single_after rows singles.old) × (doubles.new ≡ entries_after double_after rows doubles.old) }
{
    for j in 0..sorts.len() {
        put(register(j), sorts, singles, doubles, j);
    }
}

// A tile dealt to empty lanes, and they written.
pub fn deal(
    kind: u64,
    computation: u64,
    tile_sorts: &[u8],
    tile_singles: &[u32],
    tile_doubles: &[u64],
    sorts: &mut [u8],
    singles: &mut [u32],
    doubles: &mut [u64],
)
    requires lt_kind { 4 < kind }
    requires tile_sorts_len { (length tile_sorts.now ≡ 64) × (length tile_singles.now ≡ 64) × (length tile_doubles.now ≡ 64) }
    requires sorts_len { (length sorts.old ≡ 256) × (length singles.old ≡ 256) × (length doubles.old ≡ 256) }
    ensures sorts_after { sorts.new ≡ entries_after sort_after (dealt Bits.Empty kind computation (rows_from 8 tile_sorts.now tile_singles.now tile_doubles.now) (empties 32)) sorts.old }
    ensures singles_after { singles.new ≡ entries_after single_after (dealt Bits.Empty kind computation (rows_from 8 tile_sorts.now tile_singles.now tile_doubles.now) (empties 32)) singles.old }
    ensures doubles_after { doubles.new ≡ entries_after double_after (dealt Bits.Empty kind computation (rows_from 8 tile_sorts.now tile_singles.now tile_doubles.now) (empties 32)) doubles.old }
{
    write(sorts, singles, doubles, |n| {
        dealt_at(kind, computation, tile_sorts, tile_singles, tile_doubles, n)
    });
}

// What a place is collected from the lanes: empty where it lies outside the matrix. Beside `dealt_at`, since only where the register comes from is its own.
fn collected_at(
    kind: u64,
    computation: u64,
    sorts: &[u8],
    singles: &[u32],
    doubles: &[u64],
    j: usize,
) -> Bits
    requires j_bound { j < 64 }
    requires sorts_len { (length sorts.now ≡ 256) × (length singles.now ≡ 256) × (length doubles.now ≡ 256) }
    ensures { result ≡ entry Bits.Empty (collected Bits.Empty kind computation (rows_from 32 sorts.now singles.now doubles.now) (empties 8)) (j / 8) (j % 8) }
{
    let s = dealing_moves::holder(kind, computation, j as u64 / 8, j as u64 % 8) as usize;
    register_from::<256>(sorts, singles, doubles, s)
}

// An empty tile collected from the lanes, and it written.
pub fn collect(
    kind: u64,
    computation: u64,
    lane_sorts: &[u8],
    lane_singles: &[u32],
    lane_doubles: &[u64],
    sorts: &mut [u8],
    singles: &mut [u32],
    doubles: &mut [u64],
)
    requires lane_sorts_len { (length lane_sorts.now ≡ 256) × (length lane_singles.now ≡ 256) × (length lane_doubles.now ≡ 256) }
    requires sorts_len { (length sorts.old ≡ 64) × (length singles.old ≡ 64) × (length doubles.old ≡ 64) }
    ensures sorts_after { sorts.new ≡ entries_after sort_after (collected Bits.Empty kind computation (rows_from 32 lane_sorts.now lane_singles.now lane_doubles.now) (empties 8)) sorts.old }
    ensures singles_after { singles.new ≡ entries_after single_after (collected Bits.Empty kind computation (rows_from 32 lane_sorts.now lane_singles.now lane_doubles.now) (empties 8)) singles.old }
    ensures doubles_after { doubles.new ≡ entries_after double_after (collected Bits.Empty kind computation (rows_from 32 lane_sorts.now lane_singles.now lane_doubles.now) (empties 8)) doubles.old }
{
    write(sorts, singles, doubles, |j| {
        collected_at(kind, computation, lane_sorts, lane_singles, lane_doubles, j)
    });
}
