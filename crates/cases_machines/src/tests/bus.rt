//! The memory map, address by address, and the devices on the bus.
//!
//! A program is words of a tick, a colon and an act at it. `AAAA=VV` writes a byte to an address,
//! and `AAAA?VV` reads it there. `irq` and `calm` look at the interrupt line. `+N` checks the
//! number of rises of the NMI line. `D#N` checks the length of the image in a drive, or that there
//! is none.
use super::held::with_new;
use beeb_bits::{Clock, NoMemory, Tick};
use bus_plug::BusDevice;
use disc_image::{Disc, Kind};
use host_bus::Bus;
use host_devices::stretch;
use key_script::read;
use raster::Frame;
use rom_set::RomSet;
use sn76489::SoundWrite;
use std::alloc::Global;
use std::test::Fail;
use std::vec::Vec;

// Makes `length` bytes `byte`, with `others` at their places. The length is an argument, so that no
// proof writes the list out.
fn image(alloc: Global, length: usize, byte: u8, others: &[(usize, u8)]) -> Result<Vec<u8>, Fail> {
    let mut bytes = vec![in alloc; byte; length]?;
    for (place, other) in others {
        if let Some(at) = bytes.get_mut(*place) {
            *at = *other;
        }
    }
    Ok(bytes)
}

// Makes an operating system of bytes 11 and a ROM of 8,192 bytes 22 in slot 5, each with other
// bytes at both ends. The other slots are empty.
fn roms(alloc: Global) -> Result<RomSet, Fail> {
    let ends = [(0, 0x12), (0x3bff, 0x13), (0x3f00, 0x14), (0x3fff, 0x15)];
    let os = image(alloc, 16_384, 0x11, &ends)?;
    let rom = image(alloc, 8_192, 0x22, &[(0, 0x23), (0x1fff, 0x24)])?;
    Ok(RomSet::read(os, vec![in alloc; (5, rom)]?, None)?)
}

// Makes a disc of ten sectors. Byte i of sector n is n + i.
fn disc(alloc: Global) -> Result<Disc, Fail> {
    let mut bytes = vec![in alloc; 0; 2_560]?;
    for (place, byte) in bytes.iter_mut().enumerate() {
        *byte = ((place / 256 + place % 256) % 256) as u8;
    }
    Ok(Disc::make(alloc, Kind::Ssd, bytes)?)
}

// Both clocks.
const CLOCKS: [Clock; 2] = [Clock::Three, Clock::Four];

// Returns the ticks of a clock in one tick of the tables. The tables have the ticks of a second
// processor at 3 MHz.
fn scale(clock: Clock) -> u64 {
    clock.micro() / Clock::Three.micro()
}

// Returns the text of a script in which `;` ends a line, with each tick times `times`.
fn later(alloc: Global, script: &str, times: u64) -> Result<String, Fail> {
    let mut text = String::new(alloc);
    for line in script.split_terminator(';') {
        let mut words = line.splitn(3, ' ');
        if let (Some(at), Some(tick), Some(what)) = (words.next(), words.next(), words.next()) {
            let tick: u64 = tick.parse().unwrap_or(0);
            writeln!(text, "{at} {} {what}", tick.wrapping_mul(times))?;
        }
    }
    Ok(text)
}

// Makes a bus with that disc in drive 0. The script has the ticks of the tables, and `;` ends a
// line in it.
fn bus_with(alloc: Global, clock: Clock, script: &str) -> Result<Bus, Fail> {
    let text = later(alloc, script, scale(clock))?;
    let script = read(alloc, text.as_bytes())?;
    Ok(Bus::make(
        alloc,
        clock,
        roms(alloc)?,
        Some(disc(alloc)?),
        None,
        script,
        Vec::new(alloc),
    )?)
}

// An act on the bus at a tick: a write, a read with its answer, or a break. It may also be a look
// at the interrupt line's level, the count of the NMI line's rises, the length of a drive's disc,
// the tick of the next break, or a pending break.
#[derive(Clone, Copy)]
enum Act {
    Write(u16, u8),
    Read(u16, u8),
    Look(bool),
    Rises(u64),
    Disc(u8, Option<usize>),
    Next(Option<Tick>),
    Due(bool),
    Break,
}

use Act::{Break, Disc as DiscOf, Due, Look, Next, Read, Rises, Write};

fn address(digits: &str) -> Option<u16> {
    u16::from_str_radix(digits, 16).ok()
}

fn byte(digits: &str) -> Option<u8> {
    u8::from_str_radix(digits, 16).ok()
}

fn act_of(word: &str) -> Option<Act> {
    if let Some((at, v)) = word.split_once('=') {
        return Some(Write(address(at)?, byte(v)?));
    }
    if let Some((at, v)) = word.split_once('?') {
        return Some(Read(address(at)?, byte(v)?));
    }
    if let Some((drive, len)) = word.split_once('#') {
        return Some(DiscOf(byte(drive)?, len.parse().ok()));
    }
    if let Some((_, count)) = word.split_once('+') {
        return Some(Rises(count.parse().ok()?));
    }
    if let Some((_, tick)) = word.split_once('~') {
        return Some(Next(tick.parse().ok().map(Tick)));
    }
    match word {
        "irq" => Some(Look(true)),
        "calm" => Some(Look(false)),
        "due" => Some(Due(true)),
        "idle" => Some(Due(false)),
        "break" => Some(Break),
        _ => None,
    }
}

// Converts a tick of the tables, which is `times` ticks of the bus.
fn in_ticks(tick: Option<Tick>, times: u64) -> Option<Tick> {
    match tick {
        Some(tick) => Some(Tick(tick.0.wrapping_mul(times))),
        None => None,
    }
}

// Does an act. Returns true if its result is the expected one.
fn is_right<D: BusDevice>(bus: &mut Bus<D>, t: u64, act: Act) -> bool {
    let t = t % (1 << 40);
    if bus.closed() > t + 1 {
        return false;
    }
    match act {
        Write(at, v) => {
            bus.write(Tick(t), at, v);
            true
        }
        Read(at, want) => bus.read(Tick(t), at) == want,
        Look(want) => bus.irq(Tick(t)) == want,
        Rises(want) => bus.nmis(Tick(t)) == want,
        DiscOf(drive, want) => {
            bus.settle();
            bus.disc(drive).map(|disc| disc.bytes().len()) == want
        }
        Next(want) => bus.next_break() == in_ticks(want, scale(bus.clock())),
        Due(want) => bus.break_pending(Tick(t)) == want,
        Break => {
            let is_due = bus.break_pending(Tick(t));
            if is_due {
                bus.take_break(Tick(t));
            }
            is_due
        }
    }
}

// Returns the tick and the act of a word.
fn word_of(word: &str) -> Option<(u64, Act)> {
    let (tick, act) = word.split_once(':')?;
    Some((tick.parse().ok()?, act_of(act)?))
}

// Does a program whose ticks are `times` ticks of the bus each. Returns true if all results are the
// expected ones.
fn does_by<D: BusDevice>(bus: &mut Bus<D>, times: u64, program: &str) -> bool {
    for word in program.split(' ') {
        let Some((t, act)) = word_of(word) else {
            return false;
        };
        if !is_right(bus, t.wrapping_mul(times), act) {
            return false;
        }
    }
    true
}

// Does a program with the ticks of the tables.
fn does<D: BusDevice>(bus: &mut Bus<D>, program: &str) -> bool {
    let times = scale(bus.clock());
    does_by(bus, times, program)
}

// Returns the first line, of a script, `|` and a program, whose program is wrong, with the clock.
// Each runs on a new bus of either clock, after the program `before`.
fn first_wrong(
    alloc: Global,
    before: &str,
    lines: &'static str,
) -> Result<Option<(Clock, &'static str)>, Fail> {
    for clock in CLOCKS {
        for line in lines.lines() {
            if let Some((script, program)) = line.split_once('|') {
                let bus = bus_with(alloc, clock, script);
                if !with_new(bus, |bus| does(bus, before) && does(bus, program))? {
                    return Ok(Some((clock, line)));
                }
            }
        }
    }
    Ok(None)
}

// The first and the last address of an area, or of those of one kind in it; what both read at first
// and after a write of A5; and `slow` if their cycles are stretched.
const MAP: &str = "\
0000 7FFF 00 A5 fast
8000 BFFF FF FF fast
C000 C000 12 12 fast
C001 FBFE 11 11 fast
FBFF FBFF 13 13 fast
FC00 FDFF FF FF slow
FCFF FD00 FF FF slow
# The 6845's register that is selected, which cannot be read.
FE00 FE06 FE FE slow
FE01 FE07 00 00 slow
FE08 FE0E 02 02 slow
FE09 FE0F 00 00 slow
FE10 FE1F FE FE slow
FE20 FE2F FE FE fast
FE30 FE3F FE FE fast
# Both 6522s by the low four bits: port B, whose pins are all 1, port A, the control registers, and the enabled interrupts.
FE40 FE50 FF FF slow
FE4F FE5F 7F 7F slow
FE4B FE5C 00 A5 slow
FE4E FE5E 80 A5 slow
FE60 FE70 FF FF slow
FE6F FE7F FF FF slow
FE6B FE7C 00 A5 slow
FE6E FE7E 80 A5 slow
FE80 FE83 FE FE fast
# The controller's status, whose commands are ignored while its latch is 00, and its other registers.
FE84 FE84 06 06 fast
FE85 FE87 00 A5 fast
FE86 FE86 00 A5 fast
FE88 FEBF FE FE fast
# The converter by the low two bits.
FEC0 FEDC 40 85 slow
FEC1 FEDD 00 00 slow
FEC2 FEDE 00 00 slow
FEC3 FEDF FE FE slow
FF00 FF00 14 14 fast
FF01 FFFE 11 11 fast
FFFF FFFF 15 15 fast
# Addresses inside the areas.
01FF 3000 00 A5 fast
9FFF A000 FF FF fast
FE0A FE0C 02 02 slow
FE0B FE0D 00 00 slow
FEA0 FEA3 FE FE fast
FEE0 FEFF - - fast
";

// Returns true if an address reads these bytes before and after a write of A5.
fn reads_as_mapped(bus: &mut Bus, at: u16, before: u8, after: u8) -> bool {
    is_right(bus, 30, Read(at, before))
        && is_right(bus, 33, Write(at, 0xa5))
        && is_right(bus, 39, Read(at, after))
}

// Returns true if this holds for a new bus of either clock.
fn is_as_mapped(alloc: Global, at: u16, before: u8, after: u8) -> Result<bool, Fail> {
    for clock in CLOCKS {
        let bus = bus_with(alloc, clock, "");
        if !with_new(bus, |bus| reads_as_mapped(bus, at, before, after))? {
            return Ok(false);
        }
    }
    Ok(true)
}

// The parts of a row: the addresses, the bytes, and the cycles of an access that begins at an even
// cycle, and at an odd one.
type Area = ((u16, u16), Option<(u8, u8)>, (u8, u8));

fn area_of(row: &str) -> Option<Area> {
    let mut words = row.split(' ');
    let ends = (address(words.next()?)?, address(words.next()?)?);
    let bytes = byte(words.next()?).zip(byte(words.next()?));
    match words.next()? {
        "slow" => Some((ends, bytes, (2, 3))),
        _ => Some((ends, bytes, (1, 1))),
    }
}

#[test]
fn each_address_is_that_of_the_map(rt: HostRuntime) -> Result<(), Fail> {
    for row in MAP.lines() {
        let Some(((first, last), bytes, cycles)) = area_of(row) else {
            assert!(rt; row.starts_with('#'), "{row}");
            continue;
        };
        for at in [first, last] {
            assert!(rt; (stretch(at, 10), stretch(at, 13)) == cycles, "{row}");
            if let Some((before, after)) = bytes {
                assert!(rt; is_as_mapped(rt.alloc(), at, before, after)?, "{row}");
            }
        }
    }
    Ok(())
}

// Returns the clock by the megahertz of the second processor.
fn clock_of(megahertz: &str) -> Option<Clock> {
    match megahertz {
        "3" => Some(Clock::Three),
        "4" => Some(Clock::Four),
        _ => None,
    }
}

// The megahertz of the second processor, the tick of a cycle of the host, the address of an access
// at that tick, and its duration in ticks. It takes one cycle; if it is stretched, two from an even
// cycle on, and three from an odd one.
const STRETCHED: &str = "\
3 30 FE40 6
3 33 FE40 9
3 33 FE30 3
4 60 FE40 12
4 66 FE40 18
4 66 FE30 6
4 30 FE40 18
";

// Returns true if the access of such a row takes its ticks.
fn takes_its_ticks(row: &str) -> Option<bool> {
    let mut words = row.split(' ');
    let clock = clock_of(words.next()?)?;
    let t: u64 = words.next()?.parse().ok()?;
    let at = address(words.next()?)?;
    let ticks: u64 = words.next()?.parse().ok()?;
    Some(clock.host() * u64::from(stretch(at, t / clock.host())) == ticks)
}

#[test]
fn an_access_waits_for_the_1_mhz_clock(rt: HostRuntime) -> Result<(), Fail> {
    for row in STRETCHED.lines() {
        assert_eq!(rt; takes_its_ticks(row), Some(true), "{row}");
    }
    Ok(())
}

// The megahertz of the second processor, and a program with the ticks of its clock. A timer that is
// written between the microseconds 0 and 1 sets its flag in microsecond 7.
const MICROSECONDS: &str = "\
3|2:FE4B=40 2:FE44=05 2:FE45=00 41:FE4D?00 42:FE4D?40
4|2:FE4B=40 2:FE44=05 2:FE45=00 83:FE4D?00 84:FE4D?40
";

// Returns true if a new bus of a row's clock does its program.
fn has_its_ticks(alloc: Global, row: &str) -> Result<Option<bool>, Fail> {
    let Some((megahertz, program)) = row.split_once('|') else {
        return Ok(None);
    };
    let Some(clock) = clock_of(megahertz) else {
        return Ok(None);
    };
    let bus = bus_with(alloc, clock, "");
    Ok(Some(with_new(bus, |bus| does_by(bus, 1, program))?))
}

#[test]
fn a_microsecond_has_the_ticks_of_the_clock(rt: HostRuntime) -> Result<(), Fail> {
    for row in MICROSECONDS.lines() {
        assert_eq!(rt; has_its_ticks(rt.alloc(), row)?, Some(true), "{row}");
    }
    Ok(())
}

// The address at which a byte is written to the latch, and what 8000, 9FFF, A000 and BFFF then
// read. A write to the ROM is ignored.
const LATCH: &str = "\
|0:FE30=05 3:8000=A5 6:8000?23 9:9FFF?24 12:A000?23 15:BFFF?24 17:calm 17:+0
|0:FE3F=F5 3:8000=A5 6:8000?23 9:9FFF?24 12:A000?23 15:BFFF?24 17:calm 17:+0
|0:FE38=04 3:8000=A5 6:8000?FF 9:9FFF?FF 12:A000?FF 15:BFFF?FF 17:calm 17:+0
|0:FE30=0D 3:8000=A5 6:8000?FF 9:9FFF?FF 12:A000?FF 15:BFFF?FF 17:calm 17:+0
|0:FE2F=05 3:8000=A5 6:8000?FF 9:9FFF?FF 12:A000?FF 15:BFFF?FF 17:calm 17:+0
|0:FE40=05 3:8000=A5 6:8000?FF 9:9FFF?FF 12:A000?FF 15:BFFF?FF 17:calm 17:+0
";

#[test]
fn the_latch_takes_the_low_four_bits(rt: HostRuntime) -> Result<(), Fail> {
    assert_eq!(rt; first_wrong(rt.alloc(), "0:calm", LATCH)?, None);
    Ok(())
}

// A device that owns the addresses from `first` to `last` and counts its reads from `byte` on. A
// write sets the byte.
#[derive(Drop)]
struct Counter {
    first: u16,
    last: u16,
    byte: u8,
}

impl BusDevice for Counter {
    ghost use Rattle.std.specs.Prelude.{[], ◌∷◌, ◌+◌, ◌%◌, ◌&&◌, nat_le, slice_index};

    ghost plug = { λ c. record {
      rules = record {
        owned = λ s at. nat_le c.first at && nat_le at c.last;
        read_answer = λ s at. slice_index s 0;
        read_next = λ s at. (slice_index s 0 + 1) % 256 ∷ [];
        write_next = λ s at v. v ∷ [];
        spilled = λ s. s;
      };
      state = c.byte ∷ [];
    } };

    fn owns(&self, at: u16) -> bool {
        self.first <= at && at <= self.last
    }

    fn read(&mut self, _at: u16) -> u8 {
        let byte = self.byte;
        self.byte = byte.wrapping_add(1);
        byte
    }

    fn write(&mut self, _at: u16, v: u8) {
        self.byte = v;
    }

    fn spill(&self, to: &mut Vec<u8>) -> Result<(), NoMemory> {
        to.push(self.byte).map_err(|_| NoMemory)
    }
}

// Each access is one call.
const OWNERS: &str =
    "0:FC0F?14 3:FC10?0A 6:FCFF?0B 9:FD00?15 12:FDFE?16 15:FDFF?FF 18:FC10=77 21:FDFF=55 24:FC20?77 27:FC00?17";

// Makes a bus with two of them.
fn bus_with_counters(alloc: Global) -> Result<Bus<Counter>, Fail> {
    let device = |first, last, byte| Counter { first, last, byte };
    let plugs = vec![in alloc; device(0xfc10, 0xfcff, 10), device(0xfc00, 0xfdfe, 20)]?;
    let script = read(alloc, b"")?;
    let roms = roms(alloc)?;
    Ok(Bus::make(alloc, Clock::Three, roms, None, None, script, plugs)?)
}

// Returns true if each access is one call of its owner.
fn first_owners_answer(bus: &mut Bus<Counter>) -> bool {
    let is_right = does(bus, OWNERS);
    let bytes = bus.plugs().iter().map(|device| device.byte);
    let are_right = bytes.eq([0x78, 24]);
    bus.finish(Tick(60));
    is_right && are_right && bus.ram().len() == 32_768
}

#[test]
fn the_first_owner_answers_and_no_other(rt: HostRuntime) -> Result<(), Fail> {
    let bus = bus_with_counters(rt.alloc());
    assert!(rt; with_new(bus, |bus| first_owners_answer(bus))?);
    Ok(())
}

// For each script, register 3 of the system's 6522 has 7F and register F has 41. Register C has 04,
// so a rise of CA2 sets its flag.
const KEYS: &str = "\
# The key is down from tick 60 on, and CA2 is 1 from microsecond 10 on.
at 60 down 41;|54:FE4F?41 59:FE4F?41 59:FE4D?00 60:FE4F?C1 60:FE4D?01
# A read sees the key at its tick, and CA2 that of its microsecond.
at 61 down 41;at 64 up 41;at 65 down 41;|60:FE4F?41 61:FE4F?C1 64:FE4F?41 65:FE4F?C1 65:FE4D?00 66:FE4D?01
# A key that is up again at the microsecond was never on CA2.
at 61 down 41;at 66 up 41;|66:FE4D?00 72:FE4D?00
# Another key of the column, one of the first row, and one of another column.
at 0 down 71;|6:FE4F?41 6:FE4D?01
at 0 down 01;at 0 down 42;|6:FE4F?41 6:FE4D?00
# Latch bit 3 is set: bit 7 is low, and CA2 is of all columns.
at 60 down 41;|54:FE42=0F 54:FE40=0B 60:FE4F?41 60:FE4D?01 61:FE40=03 61:FE4F?C1
at 60 down 42;|54:FE42=0F 54:FE40=0B 60:FE4D?01
# A late tick.
at 10000000 down 41;|9999999:FE4F?41 10000000:FE4F?C1 10000001:FE4D?00 10000002:FE4D?01
";

#[test]
fn a_key_is_seen_at_port_a_and_ca2(rt: HostRuntime) -> Result<(), Fail> {
    let before = "0:FE43=7F 0:FE4F=41 0:FE4C=04";
    assert_eq!(rt; first_wrong(rt.alloc(), before, KEYS)?, None);
    Ok(())
}

const TIMERS: &str = "\
# The pins of port B go to the latch after a write to its direction and after one to it, and not after one to port A. Key 7F is down,
# whose number port A has where it is not written.
at 0 down 7F;|6:FE41?FF 6:FE40=03 6:FE41?FF 7:FE42=07 7:FE41?7F 8:FE42=0F 8:FE41?FF 9:FE41=0B 9:FE41?FF 10:FE40=0B 10:FE41?7F 11:FE60=03 11:FE41?7F 12:FE40=F3 12:FE41?FF
# Timer 1 of the system's, written between the microseconds 0 and 1, sets its flag in microsecond 7, and again in 14.
|2:FE4B=40 2:FE44=05 2:FE45=00 41:FE4D?00 42:FE4D?40 42:calm 42:FE4E=C0 42:irq 43:FE44?FF 83:FE4D?00 83:calm 84:irq 84:FE4D?C0
# Timer 2 of the user's asks by itself.
|0:FE6E=A0 0:FE68=05 0:FE69=00 41:calm 42:irq 42:FE6D?A0 43:FE4D?00 44:FE68?FF 44:calm
# The user's pins are 1: CA1 and CA2 rise in microsecond 0, and CB1 and CB2 never.
|0:FE6C=55 6:FE6D?00
";

#[test]
fn the_latch_and_the_timers_go_by_the_bus(rt: HostRuntime) -> Result<(), Fail> {
    assert_eq!(rt; first_wrong(rt.alloc(), "0:calm", TIMERS)?, None);
    Ok(())
}

// Before microsecond 1: 39 rows of 8 lines of 64 characters. 32 rows of 40 characters are shown, of
// sixteen dots each, from the address in registers 12 and 13 on; two dots a pixel, black or white.
// Vertical sync begins in microsecond 17,409, and every 19,968 later. The 6845 and the ULA are
// written at all their addresses, which repeat every two.
const SCREEN: &str = "\
0:FE00=00 0:FE01=3F 0:FE02=01 0:FE03=28 0:FE04=02 0:FE05=31 0:FE06=03 0:FE07=24 0:FE00=04 0:FE01=26 0:FE02=05 0:FE03=00 0:FE04=06 \
0:FE05=20 0:FE06=07 0:FE07=22 0:FE00=08 0:FE01=00 0:FE02=09 0:FE03=07 0:FE04=0A 0:FE05=00 0:FE06=0B 0:FE07=00 0:FE02=0D 0:FE03=00 \
0:FE21=07 0:FE21=17 0:FE23=27 0:FE23=37 0:FE25=47 0:FE25=57 0:FE27=67 0:FE27=77 0:FE29=80 0:FE29=90 0:FE2B=A0 0:FE2B=B0 0:FE2D=C0 \
0:FE2D=D0 0:FE2F=E0 0:FE2F=F0 0:FE2E=08";

// Returns the number of dots of each frame that are not black.
fn lit(frames: &[Frame]) -> [Option<usize>; 4] {
    [0, 1, 2, 3].map(|i| {
        frames.get(i).map(|frame| frame.colours.iter().filter(|colour| **colour > 0).count())
    })
}

// The writes that set the screen's beginning and bits 4 and 5 of the latch, and the tick and the
// address of the write of A5. After `|`, `shown` if A5 is in the frame that is finished in
// microsecond 37,377. The first byte of this frame was read in microsecond 19,969, which is tick
// 119,814.
const SHOTS: &str = "\
0:FE00=0C 0:FE01=0B 1:FE42=0F 1:FE40=04 1:FE40=05 1:FE00=0C 1:FE05?0B 1:FE04?FE 1:5800=A5|shown
0:FE00=0C 0:FE01=0B 1:FE42=0F 1:FE40=04 1:FE40=05 1:FE00=0C 1:FE05?0B 1:FE04?FE 119813:5800=A5|shown
0:FE00=0C 0:FE01=0B 1:FE42=0F 1:FE40=04 1:FE40=05 1:FE00=0C 1:FE05?0B 1:FE04?FE 119814:5800=A5|black
# An address past the RAM's end, by the size of the screen.
0:FE00=0C 0:FE01=10 1:FE42=0F 1:FE40=04 1:FE40=05 1:FE00=0C 1:FE05?10 1:FE04?FE 1:4000=A5|shown
0:FE00=0C 0:FE01=10 1:FE42=0F 1:FE40=0C 1:FE40=05 1:FE00=0C 1:FE05?10 1:FE04?FE 1:6000=A5|shown
0:FE00=0C 0:FE01=10 1:FE42=0F 1:FE40=04 1:FE40=0D 1:FE00=0C 1:FE05?10 1:FE04?FE 1:3000=A5|shown
0:FE00=0C 0:FE01=10 1:FE42=0F 1:FE40=0C 1:FE40=0D 1:FE00=0C 1:FE05?10 1:FE04?FE 1:5800=A5|shown
";

// Returns true if each shot is taken before the microsecond of its tick.
fn are_taken(bus: &mut Bus) -> bool {
    let times = scale(bus.clock());
    for (n, taken) in [(224_262, 1), (224_263, 2), (224_264, 4)] {
        bus.finish(Tick(times.wrapping_mul(n) % (1 << 40)));
        if bus.frames().len() != taken {
            return false;
        }
    }
    true
}

// Returns true if the last two of the frames, and only these, have A5 in white and black.
fn are_frames(frames: &[Frame], is_shown: bool) -> bool {
    let dots = [7, 7, 0, 0, 7, 7, 0, 0, 0, 0, 7, 7, 0, 0, 7, 7];
    let count = if is_shown { 8 } else { 0 };
    let is_there = frames.get(3).map(|frame| frame.colours.starts_with(&dots));
    lit(frames) == [Some(0), Some(0), Some(count), Some(count)] && is_there == Some(is_shown)
}

// Returns true if the shots are right after a program.
fn takes_shots(bus: &mut Bus, program: &str, shown: &str) -> bool {
    does(bus, SCREEN)
        && does(bus, program)
        && are_taken(bus)
        && are_frames(bus.frames(), shown == "shown")
}

// Returns true if this holds for a new bus.
fn takes_its_shots(alloc: Global, clock: Clock, program: &str, shown: &str) -> Result<bool, Fail> {
    let script = "at 1 shot;at 224262 shot;at 224263 shot;at 224263 shot;";
    let bus = bus_with(alloc, clock, script);
    with_new(bus, |bus| takes_shots(bus, program, shown))
}

#[test]
fn a_shot_takes_the_last_finished_frame(rt: HostRuntime) -> Result<(), Fail> {
    for clock in CLOCKS {
        for line in SHOTS.lines() {
            if let Some((program, shown)) = line.split_once('|') {
                assert!(rt;
                    takes_its_shots(rt.alloc(), clock, program, shown)?,
                    "{clock:?} {line}"
                );
            }
        }
    }
    Ok(())
}

// Vertical sync rises in microsecond 17,409, at tick 104,454, and is two lines long.
const SYNC: &str = "\
|1:FE4C=01 1:FE4E=82 104453:FE4D?00 104453:calm 104454:irq 104454:FE4D?82
|104454:FE4D=7F 105221:FE4D?00 105222:FE4D?02
";

#[test]
fn vertical_sync_is_seen_at_ca1(rt: HostRuntime) -> Result<(), Fail> {
    let mut before = String::from_str(rt.alloc(), SCREEN)?;
    before.push_str(" 0:FE00=0C 0:FE01=0B")?;
    assert_eq!(rt; first_wrong(rt.alloc(), before.as_str(), SYNC)?, None);
    Ok(())
}

// Between the microseconds 0 and 1: drive 0, track 0, sector 1, and a read.
const DISCS: &str = "\
# No byte is read: the line rises with the first byte in microsecond 21,952, and stays up past the end in 38,400.
|131711:+0 131711:FE84?81 131712:FE84?83 131712:+1 132096:FE84?87 230399:FE84?87 230400:FE84?86 230400:+1 230400:0#2560 230400:1#none 230400:2#none
# Each byte that is read lets it fall, and the next one rises. A write to the data register does the same.
|131712:FE87?01 131713:FE84?81 132095:+1 132096:+2 132097:FE87?02 132480:+3 132481:FE87=00 132864:+4 132864:0#2560 132864:1#none 132864:2#none
# A command D8 raises it in the access, and the latch lets it fall. The latch has four addresses.
|100:FE84=D8 100:+1 101:FE83=00 102:FE82=29 103:FE84=D8 103:+2 104:FE84=D8 104:+2 104:0#2560 104:1#none 104:2#none
";

#[test]
fn the_disc_controller_goes_by_the_bus(rt: HostRuntime) -> Result<(), Fail> {
    let before = "2:FE80=29 2:FE85=00 2:FE86=01 2:FE84=80";
    assert_eq!(rt; first_wrong(rt.alloc(), before, DISCS)?, None);
    Ok(())
}

const BREAKS: &str = "\
# One is pending from its tick on until it is taken.
at 60 break;|0:~60 59:idle 60:due 75:due 75:~60 75:break 75:idle 75:~none 1000:idle
at 59 down 41;at 60 break;at 61 shot;|59:idle 60:due 60:break 60:idle 61:~none
|0:~none 1000:idle
# Two at one tick are taken at once, and so are all that are pending.
at 60 break;at 60 break;|60:break 60:idle 60:~none 61:idle
at 60 break;at 70 break;at 80 break;|60:break 60:~70 69:idle 70:due 90:due 90:break 90:~none 90:idle
at 60 break;at 70 break;at 80 break;|79:break 79:~80 79:idle 80:due
# RAM, the ROM latch and the system's 6522 stay, and the user's is as at power-on.
at 60 break;|0:1234=A5 0:FE30=05 0:FE4B=40 0:FE4E=A0 0:FE6B=40 0:FE6E=A0 60:break 61:1234?A5 62:8000?23 63:FE4B?40 64:FE4E?A0 65:FE6B?00 66:FE6E?80
# The disc latch is 00: the controller then takes no command.
at 60 break;|0:FE80=29 50:FE84=D8 50:+1 60:break 61:FE84=D8 62:+1 63:FE80=29 64:FE84=D8 64:+2
";

#[test]
fn a_break_resets_the_disc_latch_and_the_users_6522(rt: HostRuntime) -> Result<(), Fail> {
    assert_eq!(rt; first_wrong(rt.alloc(), "0:calm", BREAKS)?, None);
    Ok(())
}

// A conversion that begins between the microseconds 0 and 1 ends in microsecond 4,000, at tick
// 24,000, or in 10,000, at tick 60,000.
const CONVERSIONS: &str = "\
at 0 adc 1 8000;|0:FEC0?40 1:FEC0=01 1:FEC0?81 23999:FEC0?81 23999:FEC1?00 24000:FEC0?61 24000:FEC1?80 24000:FEC2?00 24000:FEC3?FE 24001:FEDC?61
# Each register stands at each fourth address, and only writes to the first do anything.
at 0 adc 1 8000;|1:FED9=01 1:FED6=01 1:FECF=01 1:FEC0?40 2:FEC4=01 2:FED8?81 24000:FEC5?80
# The level is that of the tick of the last microsecond.
at 0 adc 1 1000;at 60000 adc 1 ABCD;at 60001 adc 1 FFFF;|1:FEC0=09 59999:FEC0?89 60000:FEC0?69 60000:FEC1?AB 60000:FEC2?C0 60006:FEC1?AB
at 0 adc 1 1000;at 60001 adc 1 ABCD;at 60002 adc 1 FFFF;|1:FEC0=09 60000:FEC0?49 60000:FEC1?10 60000:FEC2?00 60006:FEC1?10
at 0 adc 1 1000;at 12000 adc 1 2000;at 12000 adc 1 3456;at 12000 adc 0 FFFF;at 12000 adc 3 FFFF;|1:FEC0=09 60000:FEC1?34 60000:FEC2?50
# One microsecond before its end a conversion is given up.
at 0 adc 1 8000;at 0 adc 2 C000;|1:FEC0=01 23999:FEC0=02 24000:FEC0?82 24000:FEC1?00 47993:FEC0?82 47994:FEC0?72 47994:FEC1?C0
# A break does not reach it.
at 0 adc 1 8000;at 60 break;|1:FEC0=01 60:break 61:FEC0?81 24000:FEC0?61 24000:FEC1?80
# Keys and shots go on while a conversion does, and behind it.
at 600 down 41;at 606 up 41;at 30000 down 41;|0:FE43=7F 0:FE4F=41 1:FEC0=01 599:FE4F?41 600:FE4F?C1 606:FE4F?41 24000:FEC0?41 29999:FE4F?41 30000:FE4F?C1
# Its line is CB1 of the system's 6522, which sees it in the microsecond of the end. A read of port B clears the flag.
|0:FE4E=90 1:FEC0=00 23999:calm 23999:FE4D?00 24000:irq 24000:FE4D?90 24001:FE40?FF 24001:calm 30000:calm
|0:FE4E=90 0:FE4C=10 1:FEC0=00 24006:calm 24007:FEC0=00 24011:calm 24012:irq 24012:FE4D?90
";

#[test]
fn conversions_go_by_the_bus(rt: HostRuntime) -> Result<(), Fail> {
    assert_eq!(rt; first_wrong(rt.alloc(), "0:calm", CONVERSIONS)?, None);
    Ok(())
}

// Programs, and after `|` the moments and bytes of the sound writes.
const SOUNDS: &str = "\
# An operating system's first, in microsecond 21.
36:FE42=FF 51:FE43=FF 75:FE4F=9F 99:FE40=08 123:FE40=00|21:9F
# In one microsecond, at one tick and in the next one.
0:FE42=FF 0:FE43=FF 60:FE4F=80 60:FE40=08 60:FE40=00 60:FE40=08 64:FE4F=01 65:FE40=00 65:FE40=08 66:FE40=00|11:80 11:01 12:01
# Bit 0 of the latch rises, it is 0 already, or another bit falls.
0:FE42=FF 0:FE43=FF 6:FE40=08|
0:FE42=FF 0:FE43=FF 6:FE40=00 7:FE40=00|
0:FE42=FF 0:FE43=FF 6:FE40=09 7:FE40=01|
# A write to the direction of port B turns its pins; an access to any other register does not.
0:FE42=F7 0:FE43=FF 0:FE41=42 0:FE40=00 6:FE42=FF|2:42
0:FE42=FF 0:FE43=FF 0:FE40=08 6:FE41=42 6:FE4F=43 6:FE60=00 6:FE40?08|
# The pins of port A, with ones for inputs.
0:FE42=FF 0:FE43=0F 0:FE4F=30 0:FE50=08 11:FE50=00|2:F0
";

// Returns the sound write of a word.
fn sound_of(word: &str) -> Option<SoundWrite> {
    let (moment, v) = word.split_once(':')?;
    Some(SoundWrite {
        moment: moment.parse().ok()?,
        byte: byte(v)?,
    })
}

// Returns true if these are the sound writes.
fn are_sounds(sound: &[SoundWrite], words: &str) -> bool {
    let words = words.split(' ').filter(|word| !word.is_empty());
    words
        .map(sound_of)
        .eq(sound.iter().map(|write| Some(*write)))
}

// Returns true if a program on a new bus makes these sound writes.
fn makes_its_sounds(
    alloc: Global,
    clock: Clock,
    program: &str,
    sounds: &str,
) -> Result<bool, Fail> {
    let bus = bus_with(alloc, clock, "");
    with_new(
        bus,
        |bus| does(bus, program) && are_sounds(bus.sound(), sounds),
    )
}

#[test]
fn the_sound_chip_is_written_where_bit_0_of_the_latch_falls(rt: HostRuntime) -> Result<(), Fail> {
    for clock in CLOCKS {
        for line in SOUNDS.lines() {
            if let Some((program, sounds)) = line.split_once('|') {
                assert!(rt;
                    makes_its_sounds(rt.alloc(), clock, program, sounds)?,
                    "{clock:?} {line}"
                );
            }
        }
    }
    Ok(())
}

// Writes this byte to the sound chip in microsecond 1, `times` times.
fn write_sound(bus: &mut Bus, v: u8, times: u32) -> bool {
    let mut is_done = is_right(bus, 0, Write(0xfe4f, v));
    for _ in 0..times {
        is_done = is_done
            && is_right(bus, 0, Write(0xfe40, 0x08))
            && is_right(bus, 0, Write(0xfe40, 0x00));
    }
    is_done
}

// Returns true if writes are kept while there is room, and none after.
fn keeps_the_first(bus: &mut Bus) -> bool {
    let last = SoundWrite {
        moment: 1,
        byte: 0x80,
    };
    does(bus, "0:FE42=FF 0:FE43=FF")
        && write_sound(bus, 0x9f, 1_048_575)
        && bus.sound().len() == 1_048_575
        && write_sound(bus, 0x80, 1)
        && write_sound(bus, 0x81, 1)
        && bus.sound().len() == 1_048_576
        && bus.sound().last() == Some(&last)
}

#[test]
fn the_first_1048576_sound_writes_are_kept(rt: HostRuntime) -> Result<(), Fail> {
    let bus = bus_with(rt.alloc(), Clock::Three, "");
    assert!(rt; with_new(bus, |bus| keeps_the_first(bus))?);
    Ok(())
}
