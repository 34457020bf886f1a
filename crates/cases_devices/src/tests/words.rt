//! Numbers in the words of a program.
ghost use Rattle.std.specs.Prelude.{◌<◌};

/// Returns the value of a hexadecimal digit.
pub fn digit(b: u8) -> u8
    ensures { result < 16 }
{
    if b < b'A' {
        b.saturating_sub(b'0') % 16
    } else {
        b.saturating_sub(b'A' - 10) % 16
    }
}

/// Returns the byte of two hexadecimal digits.
pub fn byte(high: u8, low: u8) -> u8 {
    16 * digit(high) + digit(low)
}

/// Returns a decimal number of up to six digits.
pub fn number(digits: &[u8]) -> u32
    ensures { result < 1000000 }
{
    let mut n: u32 = 0;
    for b in digits {
        n = n % 100_000 * 10 + u32::from(digit(*b) % 10);
    }
    n % 1_000_000
}
