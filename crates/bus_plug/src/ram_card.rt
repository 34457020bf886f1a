//! The RAM card.
ghost use Rattle.std.specs.Prelude.{◌≡◌, ◌≤◌, ◌<◌, IfOk, length};
ghost use Rattle.bus_plug.specs.RamCard.{card_rules, new_card, card_place};

use crate::BusDevice;
use beeb_bits::{NoMemory, zeroed};
use std::alloc::Global;

/// The bytes of the card.
const SIZE: usize = 65_536;

/// The bytes of a page.
const PAGE: usize = 256;

/// The address of the page register.
const PAGE_REGISTER: u16 = 0xfcff;

/// The first address of the page.
const FIRST: u16 = 0xfd00;

/// 65,536 bytes of memory. FD00 to FDFF show one page, that of the page register at FCFF.
///
/// Contracts see the page register and then the bytes. The card spills the bytes.
#[derive(Drop)]
pub struct RamCard {
    page: u8,
    bytes: Vec<u8>,
    ghost full: { length bytes.items ≡ 65536 },
}

impl RamCard {
    /// Makes a card at power-on, with 00 in the register and all bytes.
    pub fn make(alloc: Global) -> Result<RamCard, NoMemory>
        ensures { IfOk result (λ card. ⟦<RamCard as BusDevice>⟧.plug card ≡ new_card) }
    {
        let bytes = zeroed(alloc, SIZE)?;
        Ok(RamCard { page: 0, bytes })
    }

    // Returns the place in the memory of an address of the page.
    fn place(&self, at: u16) -> usize
        requires { (0xFD00 ≤ at) × (at ≤ 0xFDFF) }
        ensures place { result ≡ card_place self.now.page at }
        ensures bound { result < 65536 }
    {
        usize::from(self.page) * PAGE + usize::from(at - FIRST)
    }
}

impl BusDevice for RamCard {
    ghost use Rattle.std.specs.Prelude.{◌∷◌};

    ghost plug = { λ card. record { rules = card_rules; state = card.page ∷ card.bytes.items } };

    fn owns(&self, at: u16) -> bool {
        at == PAGE_REGISTER || at >= FIRST
    }

    fn read(&mut self, at: u16) -> u8 {
        if at == PAGE_REGISTER {
            self.page
        } else if at >= FIRST {
            self.bytes[self.place(at)]
        } else {
            0xff
        }
    }

    fn write(&mut self, at: u16, v: u8) {
        if at == PAGE_REGISTER {
            self.page = v;
        } else if at >= FIRST {
            let place = self.place(at);
            self.bytes[place] = v;
        }
    }

    fn spill(&self, to: &mut Vec<u8>) -> Result<(), NoMemory> {
        Ok(to.extend_from_slice(&self.bytes)?)
    }
}
