//! Decimal digits.
ghost use Rattle.std.specs.Prelude.{◌≡◌, ◌<◌, ◌≤◌, ◌^◌, length, IsTrue, IfSome};
ghost use Rattle.std.specs.List.{list_all};
ghost use Rattle.digits.specs.Decimal.{is_digit, is_decimal, decimal_value, decimal_number};

/// Reports if a byte is `0` to `9`.
#[inline]
pub fn is_digit(b: u8) -> bool
    ensures { result ≡ is_digit b }
{
    b.is_ascii_digit()
}

/// Reports if all bytes are digits.
#[inline]
pub fn all_digits(text: &[u8]) -> bool
    ensures { result ≡ list_all is_digit text.now }
{
    text.iter().all(|b| is_digit(*b))
}

fn is_decimal(text: &[u8]) -> bool
    ensures { result ≡ is_decimal text.now }
{
    match text {
        [] => false,
        [b] => is_digit(*b),
        [b, rest @ ..] => is_digit(*b) && *b != b'0' && all_digits(rest),
    }
}

/// Returns the value of at most nineteen digits, the highest first. They may begin with zeros.
#[inline]
#[tactic(auto, using(crate::proofs::DecimalLemmas::eighteen))]
pub fn decimal_value(digits: &[u8]) -> u64
    requires few { length digits.now ≤ 19 }
    requires decimal { IsTrue (list_all is_digit digits.now) }
    ensures value { result ≡ decimal_value digits.now }
    ensures bound { result < 10 ^ length digits.now }
{
    let mut value = 0;
    for b in digits {
        value = 10 * value + u64::from(*b - b'0');
    }
    value
}

/// Returns the number of a decimal text without a sign or leading zeros. Returns `None` if the text
/// is no such number, or it is above `most`.
pub fn decimal_number(text: &[u8], most: u64) -> Option<u64>
    ensures value { result ≡ decimal_number most text.now }
    ensures bound { IfSome result (λ n. n ≤ most) }
{
    if !is_decimal(text) {
        return None;
    }
    let mut number: u64 = 0;
    for b in text {
        let more = 10 * u128::from(number) + u128::from(b.saturating_sub(b'0'));
        if more > u128::from(most) {
            return None;
        }
        number = more as u64;
    }
    Some(number)
}
