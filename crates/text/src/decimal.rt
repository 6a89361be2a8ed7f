// Decimals in: a number, digit by digit.

// A number with one digit more, if it is below 2^64.
fn extend(n: u64, digit: u64) -> Option<u64> {
    if n <= (u64::MAX - digit) / 10 {
        return Some(n * 10 + digit);
    }
    None
}

// A number with one byte more, if that is a digit and the number below 2^64.
pub fn with_byte(n: u64, b: u8) -> Option<u64> {
    if b < b'0' {
        return None;
    }
    if b'9' < b {
        return None;
    }
    extend(n, (b - b'0') as u64)
}
