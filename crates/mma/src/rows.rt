// The kinds in six numbers: the rows as a constant table, and the accumulators of wgmma by N.
ghost use Rattle.std.specs.Prelude.{◌≡◌, true, ◌≤◌, ◌<◌};
ghost use Rattle.mma_kinds.specs.Kinds.{is_accumulator, kind_of};
ghost use Rattle.mma_kinds.specs.Mma.{is_kind};
ghost use Rattle.mma_cards.specs.Clauses.{FormSound};
ghost use Rattle.mma.specs.Clauses.{unpacked};

use mma_kinds::KindForm;

// The number of the first row: kinds 0 to 8 are document 01's.
const FIRST: u64 = 9;

const COUNT: u64 = 37;

// The accumulators D of wgmma m64nN are kind 1000 + N.
const ACCUMULATORS: u64 = 1000;

// A row is six digits: elements next to each other, halves, repeats, matrices, warps, and 1 where rows and columns are exchanged.
const ROWS: [u64; 37] = [
    // 9 m16n8k8 .f16/.bf16 A
    221110,
    // 10 m16n8k8 .f16/.bf16 B
    211111,
    // 11 m16n8 C and D, every k
    221110,
    // 12 m16n8k16 .f16/.bf16 A
    222110,
    // 13 m16n8k16 .f16/.bf16 B
    212111,
    // 14 m16n8k4 .tf32 A
    121110,
    // 15 m16n8k4 .tf32 B
    111111,
    // 16 m16n8k8 .tf32 A
    122110,
    // 17 m16n8k8 .tf32 B
    112111,
    // 18 m8n8k16 .s8/.u8 A
    411110,
    // 19 m8n8k16 .s8/.u8 B
    411111,
    // 20 m8n8 C and D .s32, every k
    211110,
    // 21 m16n8k16 .s8/.u8 A
    421110,
    // 22 m16n8k16 .s8/.u8 B
    411111,
    // 23 m16n8k32 .s8/.u8 A
    422110,
    // 24 m16n8k32 .s8/.u8 B
    412111,
    // 25 m8n8k32 .s4/.u4 A
    811110,
    // 26 m8n8k32 .s4/.u4 B
    811111,
    // 27 m16n8k32 .s4/.u4 A
    821110,
    // 28 m16n8k32 .s4/.u4 B
    811111,
    // 29 m16n8k64 .s4/.u4 A
    822110,
    // 30 m16n8k64 .s4/.u4 B
    812111,
    // 31 m16n8k4 .f64 A
    121110,
    // 32 m16n8k4 .f64 B
    111111,
    // 33 m16n8k8 .f64 A
    122110,
    // 34 m16n8k8 .f64 B
    112111,
    // 35 m16n8k16 .f64 A
    124110,
    // 36 m16n8k16 .f64 B
    114111,
    // 37 wgmma m64k16 A in registers, .f16/.bf16
    222140,
    // 38 wgmma m64k8 A in registers, .tf32
    122140,
    // 39 wgmma m64k32 A in registers, .s8/.u8
    422140,
    // 40 ldmatrix/stmatrix m8n8.x1.b16
    211110,
    // 41 ldmatrix/stmatrix m8n8.x1.trans.b16
    211111,
    // 42 ldmatrix/stmatrix m8n8.x2.b16
    211210,
    // 43 ldmatrix/stmatrix m8n8.x2.trans.b16
    211211,
    // 44 ldmatrix/stmatrix m8n8.x4.b16
    211410,
    // 45 ldmatrix/stmatrix m8n8.x4.trans.b16
    211411,
];

// Whether a number is that of an accumulator: N is 8, 16, .. 256.
fn is_accumulator(kind: u64) -> bool
    ensures { result ≡ is_accumulator kind }
{
    (1008 <= kind) & (kind <= 1256) & (kind % 8 == 0)
}

// Whether a number is that of a kind. Asked by this crate alone.
pub fn is_kind(kind: u64) -> bool
    ensures { result ≡ is_kind kind }
{
    is_accumulator(kind) | ((FIRST <= kind) & (kind < FIRST + COUNT))
}

// The digits of a row.
fn row(kind: u64) -> u64
    requires { (9 ≤ kind) × (kind < 46) }
    ensures { unpacked result ≡ (kind_of kind).form }
{
    ROWS[(kind - FIRST) as usize]
}

// The six numbers of a kind. Asked, with a requires, by this crate alone.
pub fn form(kind: u64) -> KindForm
    requires { is_kind kind ≡ true }
    ensures { (result ≡ (kind_of kind).form) × FormSound result }
{
    if is_accumulator(kind) {
        return KindForm {
            next: 2,
            halves: 2,
            repeats: (kind - ACCUMULATORS) / 8,
            matrices: 1,
            warps: 4,
            turned: false,
        };
    }
    let digits = row(kind);
    KindForm {
        next: digits / 100000,
        halves: digits / 10000 % 10,
        repeats: digits / 1000 % 10,
        matrices: digits / 100 % 10,
        warps: digits / 10 % 10,
        turned: digits % 10 == 1,
    }
}
