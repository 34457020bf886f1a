//! Hexadecimal digits.
ghost use Rattle.std.specs.Prelude.{◌≡◌, ◌%◌, ◌/◌, ◌<◌, ◌≤◌, ◌^◌, length, IsTrue};
ghost use Rattle.std.specs.List.{list_all};
ghost use Rattle.digits.specs.Hexadecimal.{hex_digit, hex_digits, is_hex, is_hex_any_case, hex_value, hex_number};

/// Returns the upper-case digit of a value below 16.
#[inline]
pub fn hex_digit(value: u8) -> u8
    requires { value < 16 }
    ensures { result ≡ hex_digit value }
{
    if value < 10 {
        b'0' + value
    } else {
        b'A' - 10 + value
    }
}

// Returns the digit of `n` with the weight `weight`.
#[inline]
fn digit_at(n: u64, weight: u64) -> u8
    requires { 0 < weight }
    ensures { result ≡ hex_digit (n / weight % 16) }
{
    hex_digit((n / weight % 16) as u8)
}

/// Returns a byte in two upper-case digits.
#[inline]
#[tactic(auto, unfolding(crate::specs::Hexadecimal::hex_digits))]
pub fn two_digits(n: u8) -> [u8; 2]
    ensures { result ≡ hex_digits 2 n }
{
    let n = u64::from(n);
    [digit_at(n, 0x10), digit_at(n, 1)]
}

/// Returns a word in four upper-case digits.
#[inline]
#[tactic(auto, unfolding(crate::specs::Hexadecimal::hex_digits))]
pub fn four_digits(n: u16) -> [u8; 4]
    ensures { result ≡ hex_digits 4 n }
{
    let n = u64::from(n);
    [
        digit_at(n, 0x1000),
        digit_at(n, 0x100),
        digit_at(n, 0x10),
        digit_at(n, 1),
    ]
}

/// Returns a number below 2^40 in ten upper-case digits, and the lowest ten digits of a larger one.
#[inline]
#[tactic(auto, unfolding(crate::specs::Hexadecimal::hex_digits))]
pub fn ten_digits(n: u64) -> [u8; 10]
    ensures { result ≡ hex_digits 10 n }
{
    [
        digit_at(n, 0x10_0000_0000),
        digit_at(n, 0x1_0000_0000),
        digit_at(n, 0x1000_0000),
        digit_at(n, 0x100_0000),
        digit_at(n, 0x10_0000),
        digit_at(n, 0x1_0000),
        digit_at(n, 0x1000),
        digit_at(n, 0x100),
        digit_at(n, 0x10),
        digit_at(n, 1),
    ]
}

/// Reports if a byte is `0` to `9` or `A` to `F`.
#[inline]
pub fn is_hex(b: u8) -> bool
    ensures { result ≡ is_hex b }
{
    b.is_ascii_digit() || (b'A' <= b && b <= b'F')
}

/// Reports if a byte is `0` to `9`, `A` to `F` or `a` to `f`.
#[inline]
pub fn is_hex_any_case(b: u8) -> bool
    ensures { result ≡ is_hex_any_case b }
{
    is_hex(b) || (b'a' <= b && b <= b'f')
}

#[inline]
fn are_hex(text: &[u8]) -> bool
    ensures { result ≡ list_all is_hex text.now }
{
    text.iter().all(|b| is_hex(*b))
}

/// Reports if all bytes are upper-case digits.
#[inline]
#[tactic(auto, using(crate::specs::Laws::all_any_case))]
pub fn all_hex(text: &[u8]) -> bool
    ensures value { result ≡ list_all is_hex text.now }
    // Digits of one case are digits of either case.
    ensures any_case { IsTrue result → IsTrue (list_all is_hex_any_case text.now) }
{
    are_hex(text)
}

/// Reports if all bytes are digits, each of either case.
#[inline]
pub fn all_hex_any_case(text: &[u8]) -> bool
    ensures { result ≡ list_all is_hex_any_case text.now }
{
    text.iter().all(|b| is_hex_any_case(*b))
}

#[inline]
fn hex_value(b: u8) -> u8
    requires { IsTrue (is_hex_any_case b) }
    ensures value { result ≡ hex_value b }
    ensures bound { result < 16 }
{
    if b < b'A' {
        b - b'0'
    } else if b < b'a' {
        b - (b'A' - 10)
    } else {
        b - (b'a' - 10)
    }
}

/// Returns the number of at most sixteen digits, each of either case, the highest first.
#[inline]
#[tactic(auto, using(crate::proofs::HexLemmas::digit_steps))]
pub fn hex_number(digits: &[u8]) -> u64
    requires few { length digits.now ≤ 16 }
    requires hexadecimal { IsTrue (list_all is_hex_any_case digits.now) }
    ensures value { result ≡ hex_number digits.now }
    ensures bound { result < 16 ^ length digits.now }
{
    let mut number = 0;
    for b in digits {
        number = 16 * number + u64::from(hex_value(*b));
    }
    number
}
