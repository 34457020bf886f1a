//! Commands in progress, each with its state.
ghost use Rattle.std.specs.Prelude.{◌≡◌, ◌≤◌};
ghost use Rattle.wd1770.specs.Ends.{is_busy};

use crate::drive::{DriveNumber, Target};

/// The change of the track register at the end of a type I command.
#[derive(Clone, Copy)]
pub(crate) enum TrackChange {
    Stays,
    /// The register follows the step of the head.
    Follows,
    Becomes(u8),
}

/// A type I command: steps of a head in a direction.
#[derive(Clone, Copy)]
pub(crate) struct Motion {
    pub(crate) drive: DriveNumber,
    pub(crate) steps: u8,
    pub(crate) inward: bool,
    pub(crate) track: TrackChange,
    pub(crate) verifies: bool,
}

/// A type II command: sectors to read or write.
#[derive(Clone, Copy)]
pub(crate) struct Transfer {
    pub(crate) target: Target,
    pub(crate) writes: bool,
    pub(crate) multiple: bool,
}

/// The command in progress.
#[derive(Clone, Copy)]
pub(crate) enum Command {
    Idle,
    /// Type I, with the number of steps to its end.
    Moving(Motion, u32),
    /// The head settles, with the number of steps to the end of that.
    Settling(Transfer, u32),
    /// A search for the sector, with the number of its steps that are left.
    Searching(Transfer, u32),
    /// At the sector of this number.
    Transferring(Transfer, u8),
    /// Read address before a sector is found, with the number of steps to its end.
    SeekingAddress(Target, u32),
    /// Read address at the sector of this number.
    GivingAddress(Target, u8),
    /// Read track or write track, whose data is left out.
    Refusing,
}

impl Command {
    pub(crate) fn is_busy(self) -> bool
        ensures { result ≡ is_busy self }
    {
        !matches!(self, Command::Idle)
    }
}
