//! The drives, and the selection by the latch.
ghost use Rattle.std.specs.Prelude.{◌≡◌, ◌≤◌};
ghost use Rattle.wd1770.specs.Select.{drive_selected, side_selected, drive_or_0};
ghost use Rattle.wd1770.specs.Sectors.{disc_written, is_on_disc, byte_on_disc};

use beeb_bits::bit;
use disc_image::Disc;

/// One of the two drives.
#[derive(Clone, Copy)]
pub(crate) enum DriveNumber {
    Drive0,
    Drive1,
}

/// The target of a command, as the latch selected it when the command was written.
#[derive(Clone, Copy)]
pub(crate) struct Target {
    pub(crate) drive: Option<DriveNumber>,
    pub(crate) side: u8,
    /// The track of the head.
    pub(crate) head: u8,
}

/// A drive.
#[derive(Drop)]
pub(crate) struct Drive {
    /// The track of the head.
    pub(crate) head: u8,
    pub(crate) disc: Option<Disc>,
}

/// Returns the drive that a latch selects: drive 0 if it selects both.
pub(crate) fn drive_selected(latch: u8) -> Option<DriveNumber>
    ensures { result ≡ drive_selected latch }
{
    if bit(latch, 0) {
        Some(DriveNumber::Drive0)
    } else if bit(latch, 1) {
        Some(DriveNumber::Drive1)
    } else {
        None
    }
}

/// Returns the side that a latch selects.
pub(crate) fn side_selected(latch: u8) -> u8
    ensures { result ≡ side_selected latch }
{
    if bit(latch, 2) { 1 } else { 0 }
}

/// Returns the selected drive, or drive 0 if there is none: the head is then that of drive 0.
pub(crate) fn drive_or_0(drive: Option<DriveNumber>) -> DriveNumber
    ensures { result ≡ drive_or_0 drive }
{
    match drive {
        None => DriveNumber::Drive0,
        Some(number) => number,
    }
}

impl Drive {
    /// Reports if a disc in the drive has `sector`.
    pub(crate) fn has(&self, target: Target, sector: u8) -> bool
        ensures { result ≡ is_on_disc self.now.disc target sector }
    {
        match &self.disc {
            None => false,
            Some(disc) => disc.sector(target.side, target.head, sector).is_some(),
        }
    }

    /// Returns a byte of a sector.
    pub(crate) fn byte(&self, target: Target, sector: u8, at: u8) -> u8
        ensures { result ≡ byte_on_disc self.now.disc target sector at }
    {
        let Some(disc) = &self.disc else {
            return 0;
        };
        match disc.sector(target.side, target.head, sector) {
            None => 0,
            Some(bytes) => bytes[usize::from(at)],
        }
    }

    /// Writes a byte of a sector.
    pub(crate) fn put(&mut self, target: Target, sector: u8, at: u8, v: u8)
        ensures { self.new ≡ disc_written target sector at v self.old }
    {
        if let Some(disc) = &mut self.disc {
            let _has = disc.put_byte(target.side, target.head, sector, at, v);
        }
    }
}
