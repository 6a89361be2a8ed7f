// Bytes as pairs of hex digits, 0-9 a-f, the higher digit first.
ghost use Rattle.std.specs.Prelude.{◌<◌, IfSome};

// The value of a digit.
fn value_of(b: u8) -> Option<u8>
    ensures { IfSome result (λ digit. digit < 16) }
{
    match b {
        b'0'..=b'9' => Some(b - b'0'),
        b'a'..=b'f' => Some(b - b'a' + 10),
        _ => None,
    }
}

// Whether a text is pairs of digits.
pub fn are_pairs(text: &[u8]) -> bool {
    for b in text {
        if value_of(*b).is_none() {
            return false;
        }
    }
    text.len() % 2 == 0
}

// The byte that a pair is; what is no digit counts as 0.
fn pair(high: u8, low: u8) -> u8 {
    value_of(high).unwrap_or(0) * 16 + value_of(low).unwrap_or(0)
}

// The bytes that a text of pairs is, at most as many as a line may have; those past the pairs are zero.
pub fn bytes(text: &[u8]) -> [u8; 1024] {
    let mut all = [0u8; 1024];
    for i in 0..(text.len() / 2).min(1024) {
        all[i] = pair(text[2 * i], text[2 * i + 1]);
    }
    all
}
