//! Devices that scenes can pass in beside the program's own.
ghost use Rattle.std.specs.Prelude.{true, [], ◌∷◌, ◌+◌, ◌%◌, slice_index};

use beeb_bits::NoMemory;
use bus_plug::{BusDevice, PrinterLatch, RamCard};
use std::alloc::Global;
use std::test::Fail;

/// A device that owns all of FRED and JIM. A read gives the number of accesses before it, modulo
/// 256, and the device spills that number.
#[derive(Drop)]
struct Counter {
    accesses: u8,
}

impl BusDevice for Counter {
    ghost plug = { λ counter. record {
      rules = record {
        owned = λ s at. true;
        read_answer = λ s at. slice_index s 0;
        read_next = λ s at. (slice_index s 0 + 1) % 256 ∷ [];
        write_next = λ s at v. (slice_index s 0 + 1) % 256 ∷ [];
        spilled = λ s. s;
      };
      state = counter.accesses ∷ [];
    } };

    fn owns(&self, _at: u16) -> bool {
        true
    }

    fn read(&mut self, _at: u16) -> u8 {
        let before = self.accesses;
        self.accesses = before.wrapping_add(1);
        before
    }

    fn write(&mut self, _at: u16, _v: u8) {
        self.accesses = self.accesses.wrapping_add(1);
    }

    fn spill(&self, to: &mut Vec<u8>) -> Result<(), NoMemory> {
        Ok(to.extend_from_slice(&[self.accesses])?)
    }
}

/// A device like a counter. There is never memory for its bytes.
#[derive(Drop)]
struct Mute {
    counter: Counter,
}

impl BusDevice for Mute {
    ghost plug = { λ mute. ⟦<Counter as BusDevice>⟧.plug mute.counter };

    fn owns(&self, at: u16) -> bool {
        self.counter.owns(at)
    }

    fn read(&mut self, at: u16) -> u8 {
        self.counter.read(at)
    }

    fn write(&mut self, at: u16, v: u8) {
        self.counter.write(at, v);
    }

    fn spill(&self, _to: &mut Vec<u8>) -> Result<(), NoMemory> {
        Err(NoMemory)
    }
}

/// Makes the devices of these names, separated by blanks.
pub(crate) fn devices(alloc: Global, names: &str) -> Result<Vec<Box<dyn BusDevice + Send>>, Fail> {
    let mut plugs: Vec<Box<dyn BusDevice + Send>> = Vec::new(alloc);
    for name in names.split(' ') {
        match name {
            "none" => {}
            "card" => plugs.push(Box::new(alloc, RamCard::make(alloc)?)?)?,
            "latch" => plugs.push(Box::new(alloc, PrinterLatch::make(alloc)?)?)?,
            "mute" => {
                let counter = Counter { accesses: 0 };
                plugs.push(Box::new(alloc, Mute { counter })?)?;
            }
            _ => plugs.push(Box::new(alloc, Counter { accesses: 0 })?)?,
        }
    }
    Ok(plugs)
}
