//! Type II commands: read and write sectors.
ghost use Rattle.std.specs.Prelude.{◌≡◌, ◌<◌, ◌-◌, true, false, Some, MatchOption};
ghost use Rattle.wd1770.specs.Sectors.{search_of, transfer_of, sectors_of, settle_step, is_found, search_step, places_into, is_byte_place, sector_ended};
ghost use Rattle.wd1770.specs.Sectors.{byte_came, written_in, byte_written, reading_at, writing_at, transfer_step};

use crate::command::{Command, Transfer};
use crate::controller::Controller;
use crate::drive::{DriveNumber, Target};
use beeb_bits::bit;

/// The microseconds of a place.
pub(crate) const PLACE_TIME: u32 = 64;

/// The places from the beginning of a sector to that of the next.
pub(crate) const SECTOR_PLACES: u32 = 312;

/// The place in a sector where a write first sets DRQ.
const WRITE_ASKS: u32 = 12;

/// The place where the first byte must have been written.
const WRITE_NEEDS: u32 = 22;

/// The place where the first byte goes to the disc.
const FIRST_WRITTEN: u32 = 30;

/// The place where the first byte is read.
const FIRST_READ: u32 = 31;

/// The place where the sector ends.
const SECTOR_END: u32 = 288;

/// The microseconds that a head takes to settle.
const SETTLE_TIME: u32 = 30_000;

/// The steps of a search.
const SEARCH_TIME: u32 = 1_000_001;

/// Returns a search with none of its steps done.
fn searching(transfer: Transfer) -> Command
    ensures { result ≡ search_of transfer }
{
    Command::Searching(transfer, SEARCH_TIME)
}

/// Returns the place that passes at `angle`, counted from the beginning of a sector. Returns `None`
/// if none passes.
pub(crate) fn places_into(sector: u8, angle: u32) -> Option<u32>
    ensures { result ≡ places_into sector angle }
{
    if angle % PLACE_TIME == 0 {
        let place = angle / PLACE_TIME;
        Some(place.saturating_sub(SECTOR_PLACES * u32::from(sector)))
    } else {
        None
    }
}

/// Returns the number of the byte at a place, if 256 bytes begin at the place `first`. Returns
/// `None` if the place has no byte.
fn byte_place(first: u32, place: u32) -> Option<u8>
    requires { first < 1000 }
    ensures { MatchOption result (is_byte_place first place ≡ false) (λ at. (is_byte_place first place ≡ true) × (at ≡ place - first)) }
{
    if first <= place && place < first + 256 {
        Some((place - first) as u8)
    } else {
        None
    }
}

impl Controller {
    /// Returns the type II command of the byte `v`.
    pub(crate) fn sectors_of(&self, v: u8) -> Command
        ensures { result ≡ sectors_of v self.now }
    {
        let transfer = Transfer {
            target: self.target_selected(),
            writes: bit(v, 5),
            multiple: bit(v, 4),
        };
        if bit(v, 2) {
            Command::Settling(transfer, SETTLE_TIME)
        } else {
            searching(transfer)
        }
    }

    /// Does a step while the head settles.
    pub(crate) fn step_settling(&mut self, transfer: Transfer, left: u32)
        ensures { self.new ≡ settle_step transfer left self.old }
    {
        if left > 1 {
            self.command = Command::Settling(transfer, left - 1);
        } else {
            self.command = searching(transfer);
        }
    }

    // Reports if the sector of the sector register begins at `angle`, and a search finds it.
    fn is_found(&self, target: Target, angle: u32) -> bool
        ensures { result ≡ is_found target angle self.now }
    {
        bit(self.latch, 3)
            && target.head == self.track
            && angle == PLACE_TIME * (SECTOR_PLACES * u32::from(self.sector))
            && self.has(target, self.sector)
    }

    /// Does a step of a search.
    pub(crate) fn step_search(&mut self, transfer: Transfer, left: u32, angle: u32)
        ensures { self.new ≡ search_step transfer left angle self.old }
    {
        if self.is_found(transfer.target, angle) {
            self.command = Command::Transferring(transfer, self.sector);
        } else if left > 1 {
            self.command = Command::Searching(transfer, left - 1);
        } else {
            self.finish_not_found();
        }
    }

    /// Does a step at a sector.
    pub(crate) fn step_transfer(&mut self, transfer: Transfer, sector: u8, angle: u32)
        ensures { self.new ≡ transfer_step transfer sector angle self.old }
    {
        let Some(place) = places_into(sector, angle) else {
            return;
        };
        if transfer.writes {
            self.write_at(transfer, sector, place);
        } else {
            self.read_at(transfer, sector, place);
        }
    }

    fn read_at(&mut self, transfer: Transfer, sector: u8, place: u32)
        ensures { self.new ≡ reading_at transfer sector (Some place) self.old }
    {
        if let Some(at) = byte_place(FIRST_READ, place) {
            let v = self.disc_byte(transfer.target, sector, at);
            self.give_byte(v);
        } else if place == SECTOR_END {
            self.end_sector(transfer);
        }
    }

    /// Puts a byte from the disc into the data register.
    pub(crate) fn give_byte(&mut self, v: u8)
        ensures { self.new ≡ byte_came v self.old }
    {
        self.byte = v;
        self.lost_data = self.lost_data || self.drq;
        self.drq = true;
    }

    fn write_at(&mut self, transfer: Transfer, sector: u8, place: u32)
        ensures { self.new ≡ writing_at transfer sector (Some place) self.old }
    {
        if place == WRITE_ASKS {
            self.drq = true;
        } else if place == WRITE_NEEDS && self.drq {
            self.lost_data = true;
            self.finish();
        } else if let Some(at) = byte_place(FIRST_WRITTEN, place) {
            self.write_byte(transfer.target, sector, at);
        } else if place == SECTOR_END {
            self.end_sector(transfer);
        }
    }

    // Writes a byte to the disc: the data register, or 00 if the register was not written in time.
    fn write_byte(&mut self, target: Target, sector: u8, at: u8)
        ensures { self.new ≡ byte_written target sector at self.old }
    {
        let v = if self.drq { 0 } else { self.byte };
        self.put(target, sector, at, v);
        self.lost_data = self.lost_data || self.drq;
        self.drq = self.drq || at != 255;
    }

    fn put(&mut self, target: Target, sector: u8, at: u8, v: u8)
        ensures { self.new ≡ written_in target.drive target sector at v self.old }
    {
        match target.drive {
            None => {}
            Some(DriveNumber::Drive0) => self.drive0.put(target, sector, at, v),
            Some(DriveNumber::Drive1) => self.drive1.put(target, sector, at, v),
        }
    }

    // Ends a sector: searches for the next one, or ends the command.
    fn end_sector(&mut self, transfer: Transfer)
        ensures { self.new ≡ sector_ended transfer self.old }
    {
        if transfer.multiple {
            self.sector = self.sector.wrapping_add(1);
            self.command = searching(transfer);
        } else {
            self.finish();
        }
    }
}
