//! Memory, and running out of it.
ghost use Rattle.std.specs.Prelude.{◌≡◌, IfOk, length, slice_index, ℕ};
ghost use Rattle.beeb_bits.specs.Zeros.{zeros};

use std::alloc::{AllocError, Global};
use thiserror::Error;

/// Out of memory.
#[derive(Clone, Copy, Debug, PartialEq, Eq, Error)]
#[error("no memory")]
pub struct NoMemory;

impl From<AllocError> for NoMemory {
    fn from(_error: AllocError) -> NoMemory {
        NoMemory
    }
}

impl From<NoMemory> for AllocError {
    fn from(_error: NoMemory) -> AllocError {
        AllocError
    }
}

/// Makes `size` bytes, all 00.
///
/// # Errors
/// Out of memory.
#[tactic(auto, unfolding(crate::specs::Zeros::zeros))]
pub fn zeroed(alloc: Global, size: usize) -> Result<Vec<u8>, NoMemory>
    ensures items { IfOk result (λ v. v.items ≡ zeros size) }
    ensures length { IfOk result (λ v. length v.items ≡ size) }
{
    Ok(vec![in alloc; 0; size]?)
}
