//! Devices that are plugged into the 1 MHz bus of the host.
#![tactic(auto)]

ghost use Rattle.std.specs.Prelude.{◌≡◌, ◌++◌, MatchResult};
ghost use Rattle.bus_plug.specs.Plug.{Plug, IsPlugAddress, plug_owns, plug_answer, after_read, after_write, plug_spills};

mod printer_latch;
mod ram_card;

use beeb_bits::NoMemory;
pub use printer_latch::PrinterLatch;
pub use ram_card::RamCard;

/// A device on the 1 MHz bus, at addresses of FRED and JIM. (Acorn, BBC Microcomputer Advanced User
/// Guide, the 1 MHz bus.)
///
/// Contracts see its rules, which no call changes, and its state, a list of bytes, which a call may
/// change.
pub trait BusDevice: Drop {
    ghost plug: { Self → Plug };

    /// Reports if the device owns an address from FC00 to FDFF.
    fn owns(&self, at: u16) -> bool
        requires { IsPlugAddress at }
        ensures { result ≡ plug_owns (plug self.now) at };

    /// Reads an address.
    fn read(&mut self, at: u16) -> u8
        requires { IsPlugAddress at }
        ensures answer { result ≡ plug_answer (plug self.old) at }
        ensures after { plug self.new ≡ after_read (plug self.old) at };

    /// Writes an address.
    fn write(&mut self, at: u16, v: u8)
        requires { IsPlugAddress at }
        ensures { plug self.new ≡ after_write (plug self.old) at v };

    /// Appends the device's bytes to `to`. Returns `NoMemory`, with `to` unchanged, if out of
    /// memory.
    fn spill(&self, to: &mut Vec<u8>) -> Result<(), NoMemory>
        ensures { MatchResult result (λ _. to.new.items ≡ to.old.items ++ plug_spills (plug self.now)) (λ _. to.new.items ≡ to.old.items) };
}

impl BusDevice for Box<dyn BusDevice + Send> {
    ghost plug = { λ b. (BusDevice-box b).plug b.value };

    fn owns(&self, at: u16) -> bool {
        (**self).owns(at)
    }

    fn read(&mut self, at: u16) -> u8 {
        (**self).read(at)
    }

    fn write(&mut self, at: u16, v: u8) {
        (**self).write(at, v)
    }

    fn spill(&self, to: &mut Vec<u8>) -> Result<(), NoMemory> {
        (**self).spill(to)
    }
}
