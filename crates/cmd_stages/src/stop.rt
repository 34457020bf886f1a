//! The causes that end a command before its outputs are written.
ghost use Rattle.std.specs.Prelude.{◌≡◌};
ghost use Rattle.cmd_stages.specs.declared.stop.Refusal.TheVariants as refusals;
ghost use Rattle.cmd_stages.specs.declared.stop.Stop.TheVariants as stops;
ghost use Rattle.cmd_stages.specs.Plan.{stop_of};

use crate::name::Name;
use beeb_bits::NoMemory;
use std::alloc::{AllocError, AllocFailed};

/// The cause of a command's work without an outcome.
#[derive(Debug, Drop)]
pub enum Refusal<C> {
    /// The input is refused.
    Cause(C),
    /// There was no memory.
    NoMemory,
}

/// The cause that ends a command before its outputs are written.
#[derive(Debug, Drop)]
pub enum Stop<C> {
    /// The input is refused.
    Refused(C),
    /// The file of this name could not be read.
    ReadFault(Name),
    /// The file of this name is longer than the command accepts.
    TooLong(Name),
    /// The file of this name could not be written, or the text could not be said if the name is
    /// `-`.
    WriteFault(Name),
    /// No thread could be started.
    NoThread,
    /// There was no memory.
    NoMemory,
}

impl<C> From<AllocError> for Refusal<C> {
    ghost from_gives = { λ _ refusal. refusal ≡ refusals.NoMemory };

    fn from(_error: AllocError) -> Refusal<C> {
        Refusal::NoMemory
    }
}

impl<C> From<NoMemory> for Refusal<C> {
    ghost from_gives = { λ _ refusal. refusal ≡ refusals.NoMemory };

    fn from(_error: NoMemory) -> Refusal<C> {
        Refusal::NoMemory
    }
}

impl<C> From<AllocError> for Stop<C> {
    ghost from_gives = { λ _ stop. stop ≡ stops.NoMemory };

    fn from(_error: AllocError) -> Stop<C> {
        Stop::NoMemory
    }
}

impl<T: Drop, C> From<AllocFailed<T>> for Stop<C> {
    ghost from_gives = { λ _ stop. stop ≡ stops.NoMemory };

    fn from(_error: AllocFailed<T>) -> Stop<C> {
        Stop::NoMemory
    }
}

impl<C> From<Refusal<C>> for Stop<C> {
    ghost from_gives = { λ refusal stop. stop ≡ stop_of refusal };

    fn from(refusal: Refusal<C>) -> Stop<C> {
        match refusal {
            Refusal::Cause(cause) => Stop::Refused(cause),
            Refusal::NoMemory => Stop::NoMemory,
        }
    }
}
