// The canonical shared-memory layouts: the card of what is asked, the verdict on it, and LBO and SBO as a descriptor has them.
#![tactic(auto)]

ghost use Rattle.std.specs.Prelude.{◌≡◌};
ghost use Rattle.canonical.specs.Canonical.{encoded_lbo, reported, reported_numbers, CanonicalPromise};

use answers::{Numbers, Refusal};
use canonical::{Canonical, Reported};
use judgement::Approved;

// A descriptor counts byte strides in pieces of 16 bytes, and an LBO that is not used is assumed to be 1.
const PIECE: u64 = 16;

const ASSUMED: u64 = 1;

// LBO as a descriptor has it.
fn encoded_lbo(a: Canonical) -> u64
    ensures { result ≡ encoded_lbo a }
{
    if canonical_build::uses_lbo(a.major, a.mode) {
        a.lbo / PIECE
    } else {
        ASSUMED
    }
}

// What is reported of a verdict.
fn report(a: Canonical, verdict: Result<Approved, Refusal>) -> Reported
    ensures { result ≡ reported a verdict }
{
    match verdict {
        Ok(_) => Reported {
            verdict,
            lbo: encoded_lbo(a),
            sbo: a.sbo / PIECE,
        },
        Err(_) => Reported {
            verdict,
            lbo: 0,
            sbo: 0,
        },
    }
}

// The verdict on the canonical layout of what is asked.
pub fn judge(a: Canonical, table: &mut [u32]) -> Reported
    ensures { CanonicalPromise a table.old table.new result }
{
    let built = canonical_build::build(a);
    let answer = built.answer;
    match answer {
        Ok(()) => {
            let card = built.card;
            let verdict = verdict::judge(card, table);
            report(a, verdict)
        }
        Err(refusal) => report(a, Err(refusal)),
    }
}

// Its number and details.
pub fn reported_numbers(reported: Reported) -> Numbers
    ensures { result ≡ reported_numbers reported }
{
    let verdict = reported.verdict;
    answers::in_numbers(verdict)
}
