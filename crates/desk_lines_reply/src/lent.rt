// Memory that is lent to a question: what stands in it before, and its digest after.
ghost use Rattle.std.specs.Prelude.{◌*◌, ◌≤◌};

// What entry 0 of a lent table is before the question, of the second of two tables, and of a plan; each further
// one is one more.
pub const TABLE: u32 = 1000000;

pub const SECOND_TABLE: u32 = 3000000;

const PLAN: u64 = 2000000;

// The digest of a table is taken modulo this prime.
const DIGEST: u64 = 4294967291;

// The entries as they are lent, from the first on. No place is above 32,768, so the remainder leaves each as it
// is; so it does below. Public, with a requires, for the program above.
pub fn fill(lent: &mut [u32], first: u32)
    requires { first ≤ 3000000 }
{
    for (i, entry) in lent.iter_mut().enumerate() {
        *entry = first + (i % 65536) as u32;
    }
}

// The numbers of a plan as they are lent.
pub fn fill_plan(lent: &mut [u64]) {
    for (i, number) in lent.iter_mut().enumerate() {
        *number = PLAN + i as u64 % 65536;
    }
}

// An entry times its place, counted from 1.
fn weighted(place: u64, entry: u32) -> u64
    ensures { result ≤ 65535 * 4294967295 }
{
    (place % 65536) * u64::from(entry)
}

// The digest of a table or of a stretch of it.
pub fn digest(entries: &[u32]) -> u64 {
    let mut sum: u64 = 0;
    for (i, entry) in entries.iter().enumerate() {
        sum = (sum + weighted(i as u64 + 1, *entry)) % DIGEST;
    }
    sum
}

// A byte as an entry.
fn entry(b: u8) -> u32 {
    b as u32
}

// The digest of lent bytes, or of a note.
pub fn digest_bytes(bytes: &[u8]) -> u64 {
    let mut sum: u64 = 0;
    for (i, byte) in bytes.iter().enumerate() {
        sum = (sum + weighted(i as u64 + 1, entry(*byte))) % DIGEST;
    }
    sum
}

// A number as an entry with the same digest.
fn reduced(n: u64) -> u32 {
    (n % DIGEST) as u32
}

// The digest of a plan.
pub fn digest_plan(plan: &[u64]) -> u64 {
    let mut sum: u64 = 0;
    for (i, number) in plan.iter().enumerate() {
        sum = (sum + weighted(i as u64 + 1, reduced(*number))) % DIGEST;
    }
    sum
}
