// The moves of dealing and collecting, register by register: values go from a tile to the lanes of a warp and back, and are never looked at.
// Where a value comes from is one number, so that no array goes with it; a lane or a row is made whole and put once.
#![tactic(auto)]

ghost use Rattle.std.specs.Prelude.{◌≡◌, ℕ, cond, ◌&&◌, ◌<◌, eqb, ltb};
ghost use Rattle.values.specs.Rows.{each, each_entry};
ghost use Rattle.values.specs.Values.{dealt, collected};
ghost use Rattle.dealing_moves.specs.Moves.{source_of, holder_of, from_rows};

use values::Register;

// The source by what the register is answered to hold, for any kind.
fn source_held(kind: u64, computation: u64, lane: u64, i: u64) -> u64
    ensures { result ≡ source_of kind computation lane i }
{
    match fragment::held_by(kind, lane, i) {
        Ok(place) => {
            if place.computation == computation {
                8 * place.row + place.column
            } else {
                64
            }
        }
        Err(_) => 64,
    }
}

// Of kind 5 by its rule: the table of its places is a copy at each look.
fn accumulator_source(computation: u64, lane: u64, i: u64) -> u64
    requires { (lane < 32) × (i < 8) }
    ensures { result ≡ source_of 5 computation lane i }
{
    if lane % 16 / 4 == computation {
        let row = (lane & 1) + (i & 2) + lane / 16 * 4;
        let column = (i & 4) + (lane & 2) + (i & 1);
        return 8 * row + column;
    }
    64
}

// Of an .f64 kind with so many registers: the place, or none where the register is past them or the computation is not 0.
fn double_source(registers: u64, computation: u64, i: u64, place: u64) -> u64
    ensures { result ≡ cond (ltb i registers && eqb 0 computation) place 64 }
{
    if (i < registers) & (0 == computation) {
        place
    } else {
        64
    }
}

// Of the kinds with values, 5 to 8, by rule; no other kind above 4 has registers, and none of .f64 more than two.
// Public, with a requires, for the crates above, which have judged the kind.
pub fn matrix_source(kind: u64, computation: u64, lane: u64, i: u64) -> u64
    requires { (4 < kind) × (lane < 32) × (i < 8) }
    ensures { result ≡ source_of kind computation lane i }
{
    if kind == 5 {
        return accumulator_source(computation, lane, i);
    }
    if 1 < i {
        return 64;
    }
    if kind == 6 {
        return double_source(1, computation, i, 8 * (lane / 4) + lane % 4);
    }
    if kind == 7 {
        return double_source(1, computation, i, 8 * (lane % 4) + lane / 4);
    }
    if kind == 8 {
        return double_source(2, computation, i, 8 * (lane / 4) + (2 * (lane % 4) + i));
    }
    64
}

// The place of the tile that is dealt to a register; 64 for a register that is not the computation's. Public, with
// a requires, for the crates above, which ask of the registers that a warp has.
pub fn source(kind: u64, computation: u64, lane: u64, i: u64) -> u64
    requires { (lane < 32) × (i < 8) }
    ensures { result ≡ source_of kind computation lane i }
{
    if 4 < kind {
        matrix_source(kind, computation, lane, i)
    } else {
        source_held(kind, computation, lane, i)
    }
}

// The register that a place is collected from; 256 for a place outside the matrix.
pub fn holder(kind: u64, computation: u64, row: u64, column: u64) -> u64
    ensures { result ≡ holder_of kind computation row column }
{
    match fragment::holder_of(kind, computation, row, column) {
        Ok(slot) => 8 * slot.lane + slot.register,
        Err(_) => 256,
    }
}

// A row after each entry got what stands where a source says; past the end of the rows it says to keep what is given.
fn moved_row<const N: usize, F: Fn(u64) -> u64>(
    rows: [[Register; 8]; N],
    given: [Register; 8],
    source: F,
) -> [Register; 8]
    requires { (k : ℕ) → k < 8 → F.pre source k }
    ensures { (rule : ℕ → Register → Register) → ((k s : ℕ) (x : Register) → k < 8 → F.post source k s → rule k x ≡ from_rows Register.Empty N rows.entry x s) → result ≡ each rule given }
{
    let mut row = given;
    for k in 0..8 {
        let s = source(k as u64) as usize;
        row[k] = if s / 8 < N {
            rows[s / 8][s % 8]
        } else {
            given[k]
        };
    }
    row
}

// All rows after it.
fn moved<const N: usize, const M: usize, F: Fn(u64, u64) -> u64>(
    rows: [[Register; 8]; N],
    given: [[Register; 8]; M],
    source: F,
) -> [[Register; 8]; M]
    requires { (row k : ℕ) → row < M → k < 8 → F.pre source row k }
    ensures { (rule : ℕ → ℕ → Register → Register) → ((row k s : ℕ) (x : Register) → row < M → k < 8 → F.post source row k s → rule row k x ≡ from_rows Register.Empty N rows.entry x s) → result ≡ each_entry rule given.entry }
{
    let mut moved = given;
    for row in 0..M {
        let before = given[row];
        moved[row] = moved_row(
            rows,
            before,
            |k: u64| -> u64
                requires { F.pre source row k }
            { source(row as u64, k) },
        );
    }
    moved
}

// All lanes after dealing.
pub fn dealt_lanes(
    kind: u64,
    computation: u64,
    tile: [[Register; 8]; 8],
    given: [[Register; 8]; 32],
) -> [[Register; 8]; 32]
    ensures { result ≡ dealt Register.Empty kind computation tile given }
{
    moved(tile, given, |lane, i| source(kind, computation, lane, i))
}

// The tile after collecting.
pub fn collected_tile(
    kind: u64,
    computation: u64,
    lanes: [[Register; 8]; 32],
    given: [[Register; 8]; 8],
) -> [[Register; 8]; 8]
    ensures { result ≡ collected Register.Empty kind computation lanes given }
{
    moved(lanes, given, |row, column| {
        holder(kind, computation, row, column)
    })
}
