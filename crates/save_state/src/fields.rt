//! Fields, read at an offset of a file.
ghost use Rattle.std.specs.Prelude.{◌≡◌, ◌≤◌, ◌<◌, ◌+◌, length, slice_range, Some, MatchResult};
ghost use Rattle.save_state.specs.declared.StateError.TheVariants.{BadField};
ghost use Rattle.save_state.specs.Fields.{field, exactly, up_to, number, byte, Gives};

use crate::StateError;

/// Returns the bytes of a field, if the file does not end before their end.
pub(crate) fn field(bytes: &[u8], at: usize, size: usize) -> Result<&[u8], StateError>
    ensures { MatchResult result
        (λ f. (at + size ≤ length bytes.now) × (f.now ≡ slice_range bytes.now at (at + size)) × (length f.now ≡ size))
        (λ e. (length bytes.now < at + size) × (e ≡ BadField (length bytes.now))) }
{
    let len = bytes.len();
    if len < size || len - size < at {
        return Err(StateError::BadField { at: len as u64 });
    }
    Ok(&bytes[at..at + size])
}

/// Returns the fault of a field at offset `at` that is outside its set.
pub(crate) fn outside(at: usize) -> StateError
    ensures { result ≡ BadField at }
{
    StateError::BadField { at: at as u64 }
}

fn number_in(field: &[u8]) -> u32
    requires { length field.now ≡ 4 }
    ensures { result ≡ number field.now }
{
    u32::from_be_bytes([field[0], field[1], field[2], field[3]])
}

/// Reads a field with exactly these bytes. Returns the offset after it.
pub(crate) fn exactly_at(want: &[u8], bytes: &[u8], at: usize) -> Result<usize, StateError>
    ensures { Gives (λ next. (want.now, next)) result (field (length want.now) (exactly want.now) bytes.now at) }
{
    let found = field(bytes, at, want.len())?;
    if found == want {
        Ok(at + want.len())
    } else {
        Err(outside(at))
    }
}

/// Reads a field of one byte. Returns the byte, and the offset after it.
pub(crate) fn byte_at(bytes: &[u8], at: usize) -> Result<(u8, usize), StateError>
    ensures { Gives (λ x. x) result (field 1 (λ b. Some (byte b)) bytes.now at) }
{
    let found = field(bytes, at, 1)?;
    Ok((found[0], at + 1))
}

/// Reads a number of four bytes. Returns the number, and the offset after it.
pub(crate) fn number_at(bytes: &[u8], at: usize) -> Result<(u32, usize), StateError>
    ensures { Gives (λ x. x) result (field 4 (λ b. Some (number b)) bytes.now at) }
{
    let found = field(bytes, at, 4)?;
    Ok((number_in(found), at + 4))
}

/// Reads a number of four bytes, at most `most`. Returns the number, and the offset after it.
pub(crate) fn number_up_to(most: u32, bytes: &[u8], at: usize) -> Result<(u32, usize), StateError>
    ensures { Gives (λ x. x) result (field 4 (λ b. up_to most (number b)) bytes.now at) }
{
    let (number, next) = number_at(bytes, at)?;
    if number <= most {
        Ok((number, next))
    } else {
        Err(outside(at))
    }
}
