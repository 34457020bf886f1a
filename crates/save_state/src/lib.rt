//! Session files: all images, the key script and the accesses to the Tube of a run up to a moment,
//! from which the run can continue.
#![tactic(auto)]

mod blob;
mod decoding;
mod encoding;
mod entries;
mod fields;
mod law;
mod parts;
mod resuming;

ghost use Rattle.std.specs.Prelude.{◌≡◌};
ghost use Rattle.save_state.specs.declared.StateError.TheVariants.{NoMemory};

use beeb_bits::{Clock, Tick};
pub use blob::Blob;
pub use decoding::decode;
pub use encoding::encode;
pub use law::{file_reads_back, saved_run_is_resumed};
pub use parts::Kind;
pub use resuming::{ResumeError, resume};
use std::alloc::{AllocError, AllocFailed};
use thiserror::Error;
use tube_trace::Entry;

/// A run at a moment, as a session file holds it. The parts are the operating system's ROM, that of
/// the second processor, those of the sixteen slots, the teletext font, both discs and the key
/// script: 22, each with its bytes if it is present.
#[derive(Drop)]
pub struct Saved {
    pub clock: Clock,
    /// The moment: the file covers all steps below it.
    pub ticks: Tick,
    /// The number of plugged devices.
    pub plugs: u8,
    pub parts: Vec<Option<Blob>>,
    /// For each disc, `true` if it has two sides, and `false` if it has one or is absent.
    pub dsd: [bool; 2],
    /// The accesses of both sides below the moment.
    pub entries: Vec<Entry>,
}

/// The reason why bytes are no session file.
#[derive(Clone, Copy, Debug, PartialEq, Eq, Error)]
pub enum StateError {
    /// The first field at fault, by an offset: the field's, if it is outside its set; the file's
    /// length, if the file ends before the field or inside it; or that of the first byte after the
    /// last field, if any follows.
    #[error("a field at byte {at} is outside the form of a session file")]
    BadField { at: u64 },
    #[error("no memory")]
    NoMemory,
}

impl From<AllocError> for StateError {
    ghost from_gives = { λ _ e. e ≡ NoMemory };

    fn from(_error: AllocError) -> StateError {
        StateError::NoMemory
    }
}

impl<T: Drop> From<AllocFailed<T>> for StateError {
    ghost from_gives = { λ _ e. e ≡ NoMemory };

    fn from(_error: AllocFailed<T>) -> StateError {
        StateError::NoMemory
    }
}
