//! A device of the tests' own, by itself and in a box, and the two real devices.
ghost use Rattle.std.specs.Prelude.{◌≤◌, IfSome};

use beeb_bits::NoMemory;
use bus_plug::{BusDevice, PrinterLatch, RamCard};
use std::test::Fail;
use std::vec::Vec;

// A cell at FC00 to FCFF: a write keeps the byte, and a read gives it and adds one.
#[derive(Drop)]
struct Counter {
    byte: u8,
}

impl BusDevice for Counter {
    ghost use Rattle.std.specs.Prelude.{[], ◌∷◌, ◌+◌, ◌%◌, nat_le, slice_index};

    ghost plug = { λ c. record {
      rules = record {
        owned = λ s at. nat_le at 0xFCFF;
        read_answer = λ s at. slice_index s 0;
        read_next = λ s at. (slice_index s 0 + 1) % 256 ∷ [];
        write_next = λ s at v. v ∷ [];
        spilled = λ s. s;
      };
      state = c.byte ∷ [];
    } };

    fn owns(&self, at: u16) -> bool {
        at <= 0xfcff
    }

    fn read(&mut self, _at: u16) -> u8 {
        let byte = self.byte;
        self.byte = byte.wrapping_add(1);
        byte
    }

    fn write(&mut self, _at: u16, v: u8) {
        self.byte = v;
    }

    fn spill(&self, to: &mut Vec<u8>) -> Result<(), NoMemory> {
        to.push(self.byte).map_err(|_| NoMemory)
    }
}

// Returns true if the device owns its addresses, and a write, two reads and a spill do as `Counter`
// does.
fn is_counting<D: BusDevice>(device: &mut D, to: &mut Vec<u8>) -> bool {
    let owned = device.owns(0xfc00) && device.owns(0xfcff) && !device.owns(0xfd00);
    device.write(0xfc10, 0xff);
    let answers = (device.read(0xfc20), device.read(0xfc30));
    owned && answers == (0xff, 0x00) && device.spill(to) == Ok(())
}

#[test]
fn a_device_in_a_box_is_the_device(rt: HostRuntime) -> Result<(), Fail> {
    let mut bytes = vec![in rt.alloc(); 0x77]?;
    let mut counter = Counter { byte: 0x41 };
    assert!(rt; is_counting(&mut counter, &mut bytes));
    let mut boxed: Box<dyn BusDevice + Send> = Box::new(rt.alloc(), counter)?;
    assert!(rt; is_counting(&mut boxed, &mut bytes));
    assert_eq!(rt; bytes.as_slice(), [0x77, 0x01, 0x01].as_slice());
    Ok(())
}

// Returns an address on FRED or JIM.
fn address(digits: &str) -> Option<u16>
    ensures { IfSome result (λ at. (0xfc00 ≤ at) × (at ≤ 0xfdff)) }
{
    let at = u16::from_str_radix(digits, 16).ok()?;
    if at < 0xfc00 {
        return None;
    }
    if at > 0xfdff {
        return None;
    }
    Some(at)
}

fn byte(digits: &str) -> Option<u8> {
    u8::from_str_radix(digits, 16).ok()
}

// Does a word. Returns true if it holds. `AAAA=VV` writes a byte to an address, `AAAA?VV` reads it
// there, and `AAAA+` and `AAAA-` say that the address is, or is not, the device's.
fn holds<D: BusDevice>(device: &mut D, word: &str) -> Option<bool> {
    if let Some((at, v)) = word.split_once('=') {
        device.write(address(at)?, byte(v)?);
        return Some(true);
    }
    if let Some((at, v)) = word.split_once('?') {
        return Some(device.read(address(at)?) == byte(v)?);
    }
    if let Some((at, _)) = word.split_once('+') {
        return Some(device.owns(address(at)?));
    }
    let (at, _) = word.split_once('-')?;
    Some(!device.owns(address(at)?))
}

fn does<D: BusDevice>(device: &mut D, program: &str) -> bool {
    for word in program.split(' ') {
        if holds(device, word) != Some(true) {
            return false;
        }
    }
    true
}

// Returns true if there are `len` bytes after a device's spill, with `places` among them.
fn is_spilled<D: BusDevice>(
    device: &D,
    mut bytes: Vec<u8>,
    len: usize,
    places: &[(usize, u8)],
) -> bool {
    let is_done = device.spill(&mut bytes) == Ok(());
    for (place, want) in places {
        if bytes.get(*place) != Some(want) {
            return false;
        }
    }
    is_done && bytes.len() == len
}

// The card at FCFF and FD00 to FDFF: each page has its own 256 bytes.
#[test]
fn a_card_shows_the_page_of_its_register(rt: HostRuntime) -> Result<(), Fail> {
    let mut card = RamCard::make(rt.alloc())?;
    assert!(rt; does(&mut card, "FC10- FCFE- FCFF+ FD00+ FDFF+"));
    assert!(rt; does(&mut card, "FCFF=05 FD00=77 FDFF=78 FCFF=FF FDFF=79"));
    assert!(rt; does(&mut card, "FCFF?FF FDFF?79 FD00?00"));
    assert!(rt; does(&mut card, "FCFF=05 FD00?77 FD01?00 FDFF?78"));
    let places = [
        (0, 0x11),
        (0x501, 0x77),
        (0x502, 0),
        (0x600, 0x78),
        (0x10000, 0x79),
    ];
    let bytes = vec![in rt.alloc(); 0x11]?;
    assert!(rt; is_spilled(&card, bytes, 65_537, &places));
    Ok(())
}

// The latch at FC10: it keeps 65,536 bytes.
#[test]
fn a_latch_keeps_what_is_written(rt: HostRuntime) -> Result<(), Fail> {
    let mut latch = PrinterLatch::make(rt.alloc())?;
    assert!(rt;
        does(
            &mut latch,
            "FC0F- FC10+ FC11- FC10?00 FC10=41 FC10=42 FC10?02"
        )
    );
    for n in 2..65_538u32 {
        latch.write(0xfc10, (n % 256) as u8);
    }
    assert!(rt; does(&mut latch, "FC10?00"));
    let places = [(0, 0x11), (1, 0x41), (2, 0x42), (3, 0x02), (65_536, 0xff)];
    let bytes = vec![in rt.alloc(); 0x11]?;
    assert!(rt; is_spilled(&latch, bytes, 65_537, &places));
    Ok(())
}
