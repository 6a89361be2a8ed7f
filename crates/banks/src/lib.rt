// Banks of shared memory: the line and the bank in which an element begins.
#![tactic(auto)]

ghost use Rattle.std.specs.Prelude.{◌≡◌};
ghost use Rattle.banks_judged.specs.Bank.{bank_answer};

use answers::Refusal;
use banks_judged::BankWord;

// The first address that has no bank: 2^32.
const ADDRESSES: u64 = 4294967296;

// The bits of a bank, 4 bytes, and the banks of a line.
const BANK_BITS: u64 = 32;

const BANKS: u64 = 32;

// Line and bank of any address of elements of any bits. The address is taken as it is: where there
// is a swizzle, it is the swizzled one that is asked about.
pub fn bank_of(bits: u64, address: u64) -> Result<BankWord, Refusal>
    ensures { result ≡ bank_answer bits address }
{
    if !swizzle::is_known_bits(bits) {
        return Err(Refusal::Swizzle);
    }
    if !(address < ADDRESSES) {
        return Err(Refusal::Coordinate);
    }
    let word = address * bits / BANK_BITS;
    Ok(BankWord {
        line: word / BANKS,
        bank: word % BANKS,
    })
}
