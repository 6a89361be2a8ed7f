// Registers in a caller's arrays judged: whether a tile can be dealt, or collected from the lanes, and the first register of the wrong sort. Public,
// with a requires, only for the crate above, whose arrays are as long as said.
#![tactic(auto)]

ghost use Rattle.std.specs.Prelude.{◌≡◌, ℕ, length};
ghost use Rattle.values.specs.Registers.{is_of_sort, deal_answer, collect_answer};
ghost use Rattle.values.specs.Holdings.{deal_holdings_answer};
ghost use Rattle.c_bits.specs.Bits.{register_from, rows_from, read_as, registers_held};

use answers::Refusal;

// Whether an entry's sort is the kind's: singles, 1, for kind 5, and doubles, 2, for the others; what the bits are does not count.
fn is_of_sort(kind: u64, sort: u8) -> bool
    ensures { (single double : ℕ) → result ≡ is_of_sort kind (read_as (register_from sort single double)) }
{
    sort == if kind == 5 { 1 } else { 2 }
}

// Whether a tile can be dealt.
pub fn judge_dealing(
    kind: u64,
    computation: u64,
    sorts: &[u8],
    singles: &[u32],
    doubles: &[u64],
) -> Result<(), Refusal>
    requires { (length sorts.now ≡ 64) × (length singles.now ≡ 64) × (length doubles.now ≡ 64) }
    ensures { result ≡ deal_answer kind computation (registers_held (rows_from 8 sorts.now singles.now doubles.now)) }
{
    if dealing::is_matrix(kind, computation) {
        dealing::judge_by(kind, computation, |_, p| is_of_sort(kind, sorts[p]))
    } else {
        Err(fragment::outside())
    }
}

// Whether a tile can be dealt to holdings.
pub fn judge_dealing_holdings(
    kind: u64,
    computation: u64,
    sorts: &[u8],
    singles: &[u32],
    doubles: &[u64],
) -> Result<(), Refusal>
    requires { (length sorts.now ≡ 64) × (length singles.now ≡ 64) × (length doubles.now ≡ 64) }
    ensures { result ≡ deal_holdings_answer kind computation (registers_held (rows_from 8 sorts.now singles.now doubles.now)) }
{
    if 5 < kind {
        judge_dealing(kind, computation, sorts, singles, doubles)
    } else {
        Err(fragment::outside())
    }
}

// Whether a tile can be collected from the lanes. Beside `judge_dealing`, since `urszovely_deal` and `urszovely_collect` each need their own answer.
pub fn judge_collecting(
    kind: u64,
    computation: u64,
    sorts: &[u8],
    singles: &[u32],
    doubles: &[u64],
) -> Result<(), Refusal>
    requires { (length sorts.now ≡ 256) × (length singles.now ≡ 256) × (length doubles.now ≡ 256) }
    ensures { result ≡ collect_answer kind computation (registers_held (rows_from 32 sorts.now singles.now doubles.now)) }
{
    if dealing::is_matrix(kind, computation) {
        dealing::judge_by(kind, computation, |n, _| is_of_sort(kind, sorts[n]))
    } else {
        Err(fragment::outside())
    }
}
