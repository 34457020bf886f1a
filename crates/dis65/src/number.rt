//! Hexadecimal numbers between two texts.
ghost use Rattle.std.specs.Prelude.{◌≡◌, ◌++◌, IfOk};
ghost use Rattle.digits.specs.Hexadecimal.{hex_digits};

use digits::{four_digits, two_digits};
use std::alloc::AllocError;

/// Appends a byte in two digits, between two texts.
pub(crate) fn push_byte(
    text: &mut Vec<u8>,
    before: &[u8],
    n: u8,
    after: &[u8],
) -> Result<(), AllocError>
    ensures { IfOk result (λ _. text.new.items ≡ text.old.items ++ (before.now ++ hex_digits 2 n ++ after.now)) }
{
    text.extend_from_slice(before)?;
    text.extend_from_slice(&two_digits(n))?;
    text.extend_from_slice(after)
}

/// Appends a word in four digits, between two texts.
pub(crate) fn push_word(
    text: &mut Vec<u8>,
    before: &[u8],
    n: u16,
    after: &[u8],
) -> Result<(), AllocError>
    ensures { IfOk result (λ _. text.new.items ≡ text.old.items ++ (before.now ++ hex_digits 4 n ++ after.now)) }
{
    text.extend_from_slice(before)?;
    text.extend_from_slice(&four_digits(n))?;
    text.extend_from_slice(after)
}
