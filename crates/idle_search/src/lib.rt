// The search for idle copies on a packed card, and the admission with which verdict, owner and placement begin.
// The search goes by keys: each second from 1 on, and for each the firsts below it, at most 64 combinations. A combination is walked once
// and has one key (`key_of`), a fixed function of its eight sums; a second's key is looked for among those below it, and sums are compared
// only where keys agree. Equal sums have equal keys whatever the function is (`none_passed`), so nothing has to be believed of it: it turns
// by nine bits for each axis, so that small sums of different axes seldom meet. Sums are counted from 2^40, so that none is below zero and
// each is a word as it stands. The search for a key ends at the second's own, so it asks for no bound. A card without replica is not
// searched. What the functions promise is the record, so the quicker search moved no promise.
#![tactic(auto)]

ghost use Rattle.std.specs.Prelude.{◌≡◌, ◌+◌, ◌≤◌, ◌<◌, length};
ghost use Rattle.card.specs.declared.Iters.{Iters};
ghost use Rattle.card.specs.Packed.{iters_of, card_of, Whole, Admits};
ghost use Rattle.copies_sums.specs.Walks.{Walkable};
ghost use Rattle.idle.specs.Idle.{SameSums, Finds};
ghost use Rattle.idle.specs.Admission.{AdmissionSays, full_admission};
ghost use Rattle.idle.specs.Clauses.{Says, Twin};
ghost use Rattle.idle_search.specs.Clauses.{natural, mixed, Natural, key_of, Keyed, Passes};

use answers::Refusal;
use card::Card;

// What the sums of a combination are counted from here, 2^40: so far from zero that none comes below it.
const FAR: i64 = 1099511627776;

// Whether two lists of eight sums are the same.
fn are_equal(one: &[i64; 8], other: &[i64; 8]) -> bool
    requires { (length one.now ≡ 8) × (length other.now ≡ 8) }
    ensures { Says (one.now ≡ other.now) result }
{
    one == other
}

// Whether two replica combinations give the same sum on every axis.
fn same_sums(numbers: &[u64; 56], strides: &[i64; 24], a: u64, b: u64) -> bool
    requires { Walkable numbers.now strides.now 1 }
    ensures { Says (SameSums (iters_of numbers.now strides.now 1) a b) result }
{
    let mut first = [FAR; 8];
    copies_sums::walk(numbers, strides, card::REPLICA, a, &mut first);
    let mut second = [FAR; 8];
    copies_sums::walk(numbers, strides, card::REPLICA, b, &mut second);
    are_equal(&first, &second)
}

// A key with one sum more: turned by nine bits, so that small sums of different axes fall on different bits.
fn mix(key: u64, sum: i64) -> u64
    requires { natural sum }
    ensures { result ≡ mixed key sum }
{
    ((key << 9) ^ (key >> 55)) ^ (sum as u64)
}

// The key of eight sums.
fn key_of(sums: &[i64; 8]) -> u64
    requires { Natural sums.now }
    ensures { result ≡ key_of sums.now }
{
    let mut key: u64 = 0;
    for sum in sums {
        key = mix(key, *sum);
    }
    key
}

// Puts the key of the first combination, which adds nothing: its sums are what they are counted from.
fn put_first_key(keys: &mut [u64; 64])
    requires { length keys.old ≡ 64 }
    ensures { (replica : Iters) → Keyed replica 1 keys.new }
{
    let sums = [FAR; 8];
    let key = key_of(&sums);
    keys[0] = key;
}

// Puts the key of combination b beside those of the combinations below it.
fn put_key(numbers: &[u64; 56], strides: &[i64; 24], b: u64, keys: &mut [u64; 64])
    requires { Walkable numbers.now strides.now 1 × Keyed (iters_of numbers.now strides.now 1) b keys.old × (b < 64) }
    ensures { Keyed (iters_of numbers.now strides.now 1) (b + 1) keys.new }
{
    let mut sums = [FAR; 8];
    copies_sums::walk(numbers, strides, card::REPLICA, b, &mut sums);
    let key = key_of(&sums);
    keys[b as usize] = key;
}

// The first combination from a place on that has the key of b: b at the latest.
fn find_key(keys: &[u64; 64], from: u64, b: u64) -> u64
    requires { (length keys.now ≡ 64) × (from ≤ b) × (b < 64) }
    ensures { Passes keys.now b from result }
{
    let key = keys[b as usize];
    let mut a = from;
    // A while: the search asks for no bound, since b has its own key.
    while keys[a as usize] != key {
        a += 1;
    }
    a
}

// The smallest combination below b that gives the sums of b, or b. Sums are compared only where keys agree.
fn find_twin(numbers: &[u64; 56], strides: &[i64; 24], keys: &[u64; 64], b: u64) -> u64
    requires { Walkable numbers.now strides.now 1 × Keyed (iters_of numbers.now strides.now 1) (b + 1) keys.now × (b < 64) }
    ensures { Twin (iters_of numbers.now strides.now 1) b result }
{
    let mut a = find_key(keys, 0, b);
    // A while: the next place is the one that find_key gives.
    while a < b {
        if same_sums(numbers, strides, a, b) {
            return a;
        }
        a = find_key(keys, a + 1, b);
    }
    b
}

// The pair of a packed card that passes checks 1 to 6. The first combination is the second of none, and
// a card without replica is not searched.
fn find_pair(numbers: &[u64; 56], strides: &[i64; 24]) -> Option<(u64, u64)>
    requires { Admits numbers.now strides.now }
    ensures { Finds (iters_of numbers.now strides.now 1) result }
{
    let copies = numbers[card::COPIES];
    if copies < 2 {
        return None;
    }
    let mut keys = [0u64; 64];
    put_first_key(&mut keys);
    for b in 1..copies {
        put_key(numbers, strides, b, &mut keys);
        let a = find_twin(numbers, strides, &keys, b);
        if a < b {
            return Some((a, b));
        }
    }
    None
}

// The admission of a packed card to verdict, owner and placement: checks 1 to 6, then 17. Public, with a
// requires, for the crates above, which pack a card first.
pub fn admit_packed(numbers: &[u64; 56], strides: &[i64; 24]) -> Result<(), Refusal>
    requires { Whole numbers.now strides.now }
    ensures { result ≡ full_admission (card_of numbers.now strides.now) }
{
    admission::admit_packed(numbers, strides)?;
    match find_pair(numbers, strides) {
        Some((a, b)) => Err(Refusal::Idle { a, b }),
        None => Ok(()),
    }
}

// The admission of any card to verdict, owner and placement.
pub fn admit(card: Card) -> Result<(), Refusal>
    ensures { AdmissionSays card result }
{
    let packed = card_packed::pack(card);
    let numbers = packed.numbers;
    let strides = packed.strides;
    admit_packed(&numbers, &strides)
}
