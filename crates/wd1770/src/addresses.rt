//! Read address.
ghost use Rattle.std.specs.Prelude.{◌≡◌, ◌≤◌, ◌<◌, Some};
ghost use Rattle.wd1770.specs.Addresses.{is_address, address_search_step, address_at, address_step, address_of};

use crate::command::Command;
use crate::controller::Controller;
use crate::drive::Target;
use crate::sectors::{PLACE_TIME, SECTOR_PLACES, places_into};
use beeb_bits::bit;

/// The microseconds from the beginning of a sector to that of the next.
const SECTOR_TIME: u32 = PLACE_TIME * SECTOR_PLACES;

/// The microseconds after which the command ends if no sector is found.
const ADDRESS_TIME: u32 = 1_000_000;

/// The places in a sector of the first and the last byte of its address.
const FIRST_PLACE: u32 = 7;

const LAST_PLACE: u32 = 12;

/// The place in a sector where the command ends.
const END_PLACE: u32 = 14;

impl Controller {
    pub(crate) fn address_of(&self) -> Command
        ensures { result ≡ address_of self.now }
    {
        Command::SeekingAddress(self.target_selected(), ADDRESS_TIME)
    }

    // Reports if a sector that is on the disc begins at `angle`, and single density is selected.
    fn is_address(&self, target: Target, angle: u32) -> bool
        requires { angle < 200000 }
        ensures { result ≡ is_address target angle self.now }
    {
        bit(self.latch, 3)
            && angle % SECTOR_TIME == 0
            && self.has(target, (angle / SECTOR_TIME) as u8)
    }

    /// Does a step before a sector is found.
    pub(crate) fn step_address_search(&mut self, target: Target, left: u32, angle: u32)
        requires { angle < 200000 }
        ensures { self.new ≡ address_search_step target left angle self.old }
    {
        if self.is_address(target, angle) {
            self.command = Command::GivingAddress(target, (angle / SECTOR_TIME) as u8);
        } else if left > 1 {
            self.command = Command::SeekingAddress(target, left - 1);
        } else {
            self.finish_not_found();
        }
    }

    /// Does a step at a sector.
    pub(crate) fn step_address(&mut self, target: Target, sector: u8, angle: u32)
        ensures { self.new ≡ address_step target sector angle self.old }
    {
        if let Some(place) = places_into(sector, angle) {
            self.address_at(target, sector, place);
        }
    }

    fn address_at(&mut self, target: Target, sector: u8, place: u32)
        ensures { self.new ≡ address_at target sector (Some place) self.old }
    {
        if FIRST_PLACE <= place && place <= LAST_PLACE {
            let bytes = [target.head, target.side, sector, 1, 0, 0];
            self.give_byte(bytes[(place - FIRST_PLACE) as usize]);
        } else if place == END_PLACE {
            self.sector = target.head;
            self.finish();
        }
    }
}
