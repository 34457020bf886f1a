//! The printer latch.
ghost use Rattle.std.specs.Prelude.{◌≡◌, ◌≤◌, IfOk, vec_capacity};
ghost use Rattle.bus_plug.specs.PrinterLatch.{latch_rules, new_latch};

use crate::BusDevice;
use beeb_bits::NoMemory;
use std::alloc::Global;

/// The largest number of stored bytes.
const ROOM: usize = 65_536;

/// The address of the latch.
const ADDRESS: u16 = 0xfc10;

/// A latch at FC10 for a printer. It stores the bytes written to it, up to 65,536, and a read gives
/// the low byte of their number.
///
/// Contracts see the stored bytes. The latch spills them.
#[derive(Drop)]
pub struct PrinterLatch {
    kept: Vec<u8>,
    // Memory for all bytes is taken at power-on.
    ghost room: { 65536 ≤ vec_capacity kept },
}

impl PrinterLatch {
    /// Makes a latch at power-on, without a stored byte.
    pub fn make(alloc: Global) -> Result<PrinterLatch, NoMemory>
        ensures { IfOk result (λ latch. ⟦<PrinterLatch as BusDevice>⟧.plug latch ≡ new_latch) }
    {
        let kept = Vec::with_capacity(alloc, ROOM)?;
        Ok(PrinterLatch { kept })
    }
}

impl BusDevice for PrinterLatch {
    ghost plug = { λ latch. record { rules = latch_rules; state = latch.kept.items } };

    fn owns(&self, at: u16) -> bool {
        at == ADDRESS
    }

    fn read(&mut self, _at: u16) -> u8 {
        (self.kept.len() % 256) as u8
    }

    fn write(&mut self, _at: u16, v: u8) {
        if self.kept.len() < ROOM {
            self.kept.push_reserved(v);
        }
    }

    fn spill(&self, to: &mut Vec<u8>) -> Result<(), NoMemory> {
        Ok(to.extend_from_slice(&self.kept)?)
    }
}
