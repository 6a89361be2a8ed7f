// Dealing a tile's values to the lanes of a warp and collecting them: which are of the wrong sort, the answer, and what is filled.
#![tactic(auto)]

ghost use Rattle.std.specs.Prelude.{◌≡◌, ℕ, Bool, ◌/◌, ◌%◌, ◌<◌};
ghost use Rattle.values.specs.Registers.{is_matrix, is_of_sort, judged, deal_answer, collect_answer, dealt_lanes, collected_tile};
ghost use Rattle.dealing_moves.specs.Moves.{source_of};

use answers::Refusal;
use values::Register;

// The registers of all lanes, eight a lane.
const REGISTERS: usize = 256;

// Whether the kind is one of 5 to 8 and has the computation.
pub fn is_matrix(kind: u64, computation: u64) -> bool
    ensures { result ≡ is_matrix kind computation }
{
    (5 <= kind) & (kind < 9) & (computation < fragment::computations(kind))
}

// Whether a register reads as the kind's sort: a single for kind 5, a double for the others.
fn is_of_sort(kind: u64, register: Register) -> bool
    ensures { result ≡ is_of_sort kind register }
{
    match register {
        Register::Empty => false,
        Register::Single(_) => kind == 5,
        Register::Double(_) => !(kind == 5),
    }
}

// Whether all of the computation's registers are of the kind's sort, as a test says of a register, counted through the lanes, and of the place that
// is dealt to it; if not, the first that is not. Public, with a requires, for the crate above, which tests the numbers of a caller's arrays.
pub fn judge_by<F: Fn(usize, usize) -> bool>(
    kind: u64,
    computation: u64,
    is_right: F,
) -> Result<(), Refusal>
    requires lt_kind { 4 < kind }
    requires pre { (n p : ℕ) → n < 256 → p < 64 → F.pre is_right n p }
    ensures { (value : ℕ → ℕ → Register) → ((n p : ℕ) (r : Bool) → p ≡ source_of kind computation (n / 8) (n % 8) → n < 256 → p < 64 → F.post is_right n p r → r ≡ is_of_sort kind (value (n / 8) (n % 8))) → result ≡ judged kind computation value }
{
    for n in 0..REGISTERS {
        let p = dealing_moves::matrix_source(
            kind,
            computation,
            n as u64 / 8,
            n as u64 % 8,
        ) as usize;
        if p < 64 && !is_right(n, p) {
            return Err(Refusal::Fragment {
                lane: n as u64 / 8,
                register: n as u64 % 8,
            });
        }
    }
    Ok(())
}

// Whether a tile can be dealt: its places are judged in the registers that they would go to.
pub fn judge_dealing(kind: u64, computation: u64, tile: [[Register; 8]; 8]) -> Result<(), Refusal>
    ensures { result ≡ deal_answer kind computation tile }
{
    // asked before anything is dealt, so that a refusal costs no dealing
    if !is_matrix(kind, computation) {
        return Err(fragment::outside());
    }
    let none = [[Register::Empty; 8]; 32];
    let lanes = dealing_moves::dealt_lanes(kind, computation, tile, none);
    judge_collecting(kind, computation, lanes)
}

// The lanes with the tile dealt to them, or as given where refused.
pub fn deal(
    kind: u64,
    computation: u64,
    tile: [[Register; 8]; 8],
    lanes: [[Register; 8]; 32],
) -> [[Register; 8]; 32]
    ensures { result ≡ dealt_lanes kind computation tile lanes }
{
    match judge_dealing(kind, computation, tile) {
        Ok(()) => dealing_moves::dealt_lanes(kind, computation, tile, lanes),
        Err(_) => lanes,
    }
}

// Whether a tile can be collected from the lanes.
pub fn judge_collecting(
    kind: u64,
    computation: u64,
    lanes: [[Register; 8]; 32],
) -> Result<(), Refusal>
    ensures { result ≡ collect_answer kind computation lanes }
{
    if is_matrix(kind, computation) {
        let is_right = |n: usize, _: usize| is_of_sort(kind, lanes[n / 8][n % 8]);
        judge_by(kind, computation, is_right)
    } else {
        Err(fragment::outside())
    }
}

// The tile collected from the lanes, or as given where refused.
pub fn collect(
    kind: u64,
    computation: u64,
    lanes: [[Register; 8]; 32],
    tile: [[Register; 8]; 8],
) -> [[Register; 8]; 8]
    ensures { result ≡ collected_tile kind computation lanes tile }
{
    match judge_collecting(kind, computation, lanes) {
        Ok(()) => dealing_moves::collected_tile(kind, computation, lanes, tile),
        Err(_) => tile,
    }
}
