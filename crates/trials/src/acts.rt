//! The host's bus, whose devices lag, compared with one that is closed and stepped at each tick.
use crate::chance::Chance;
use crate::twins::{Tried, agree};
use beeb_bits::{Clock, NoMemory, Tick, zeroed};
use disc_image::{Disc, Kind};
use host_bus::Bus;
use key_script::read;
use raster::Frame;
use rom_set::RomSet;
use std::alloc::Global;

// Keys, levels, breaks and shots.
pub const EVENTS: &[u8] = b"at 100 down 41
at 333 up 41
at 2000 adc 1 8000
at 4000 shot
at 9217 shot
at 9222 down 11
at 12345 shot
at 18500 shot
at 20000 adc 2 1234
at 23000 shot
at 26000 down 7F
at 27700 shot
at 30011 break
at 31000 shot
at 31000 shot
at 37000 shot
at 40000 up 11
at 41500 shot
at 46100 shot
at 50700 shot
at 55555 shot
at 60001 break
at 60100 shot
at 64700 shot
at 70001 up 7F
at 75000 shot
at 90000 shot
";

// Registers of all devices: the 6845, the serial system and the ULA, the latch, both 6522s, the
// disc controller and the converter; and FRED and JIM.
const REGISTERS: [u16; 32] = [
    0xfe00, 0xfe01, 0xfe08, 0xfe20, 0xfe21, 0xfe30, 0xfe40, 0xfe41, 0xfe42, 0xfe43, 0xfe44, 0xfe45,
    0xfe48, 0xfe49, 0xfe4b, 0xfe4c, 0xfe4d, 0xfe4e, 0xfe4f, 0xfe60, 0xfe64, 0xfe65, 0xfe68, 0xfe69,
    0xfe6b, 0xfe6e, 0xfe84, 0xfe87, 0xfec0, 0xfec1, 0xfc00, 0xfd00,
];

// Registers in which small numbers have effects: the 6845's, those that select one, timers' high
// bytes, the latch, and the disc controller's.
const SMALL: [u16; 12] = [
    0xfe00, 0xfe01, 0xfe00, 0xfe40, 0xfe45, 0xfe49, 0xfe65, 0xfe69, 0xfe84, 0xfe87, 0xfec0, 0xfe20,
];

// Bytes that the small screen shows, the first and the last among them, and one between its lines.
const SHOWN: [u16; 6] = [0x5800, 0x5800, 0x5801, 0x5808, 0x5818, 0x5858];

// Registers of the 6845 for a screen of 44 lines of 20 characters. Its first four lines show three
// characters each, from 5800 on. Vertical sync begins after these lines. The frame has the 41st
// line after it and later ones, so it begins with these lines.
pub const SMALL_SCREEN: [(u8, u8); 12] = [
    (0, 19),
    (1, 3),
    (2, 4),
    (3, 0x22),
    (4, 43),
    (5, 0),
    (6, 4),
    (7, 4),
    (8, 0),
    (9, 0),
    (12, 0x0b),
    (13, 0),
];

// The latch's pins, drive 0, interrupts, and the ULA.
pub const SETTINGS: [(u16, u8); 6] = [
    (0xfe42, 0x0f),
    (0xfe80, 0x29),
    (0xfe4e, 0xff),
    (0xfe6e, 0xff),
    (0xfe20, 0x08),
    (0xfe44, 0x40),
];

/// A read of the first sector.
pub const SECTOR: [(u16, u8); 3] = [(0xfe85, 0), (0xfe86, 1), (0xfe84, 0x80)];

// The microsecond of the sector's first byte, or a few before it.
const FIRST_BYTE: u64 = 21_950;

/// The number of acts of each seed.
pub const ACTS: u64 = 250;

// An act at a tick: a write, a read, a look at both lines, or one at the NMI line alone. It may
// also be a write to the RAM after the bus is closed below the tick, a closing, the steps that a
// board owes, or a break.
#[derive(Clone, Copy)]
enum Act {
    Write(u16, u8),
    Read(u16),
    Look,
    Rises,
    Put(u16, u8),
    Close,
    Settle,
    Break,
}

fn any_act(chance: &mut Chance) -> Act {
    match chance.below(16) {
        0 | 1 => Act::Look,
        2 => Act::Rises,
        3 => Act::Read(chance.among(&REGISTERS)),
        // Clears flags, so that interrupts are asked for again.
        4 => Act::Write(chance.among(&[0xfe4d, 0xfe6d]), 0x7f),
        5 => Act::Write(chance.memory(), chance.byte()),
        6 => Act::Write(chance.among(&SHOWN), chance.byte()),
        7 | 8 => Act::Write(chance.among(&SMALL), chance.byte() % 16),
        9 => Act::Put(chance.memory(), chance.byte()),
        10 => Act::Put(chance.among(&SHOWN), chance.byte()),
        11 => match chance.below(4) {
            0 => Act::Settle,
            1 => Act::Break,
            _ => Act::Close,
        },
        12 => Act::Write(0xfe00 + u16::from(chance.byte()), chance.byte()),
        _ => Act::Write(chance.among(&REGISTERS), chance.byte()),
    }
}

// Returns true if an act may move the small screen: a write to the 6845 or to the ULA's control
// byte.
fn moves_screen(act: Act) -> bool {
    match act {
        Act::Write(at, _) => at / 8 == 0x1fc0 || at / 8 == 0x1fc4 && at % 2 == 0,
        _ => false,
    }
}

// Chooses an act that does not move the screen, if `keeps` is set.
fn act_of(chance: &mut Chance, keeps: bool) -> Act {
    let act = any_act(chance);
    if keeps && moves_screen(act) {
        Act::Write(chance.among(&SHOWN), chance.byte())
    } else {
        act
    }
}

// Chooses the ticks up to the next act: mostly few, and at times many.
fn wait(chance: &mut Chance) -> u64 {
    let most = match chance.below(16) {
        0 => 6_000,
        1 | 2 => 700,
        3 | 4 | 5 => 80,
        _ => 9,
    };
    u64::from(chance.below(most))
}

// Makes a bus. The script and the size of a ROM are arguments, so that no proof writes the lists
// out.
fn bus(alloc: Global, clock: Clock, script: &[u8], size: usize) -> Result<Bus, NoMemory> {
    let os = zeroed(alloc, size)?;
    let Ok(roms) = RomSet::read(os, Vec::new(alloc), None) else {
        return Err(NoMemory);
    };
    let mut bytes = zeroed(alloc, size / 4)?;
    for (place, byte) in bytes.iter_mut().enumerate() {
        *byte = (place % 251) as u8;
    }
    let Ok(disc) = Disc::make(alloc, Kind::Ssd, bytes) else {
        return Err(NoMemory);
    };
    let Ok(script) = read(alloc, script) else {
        return Err(NoMemory);
    };
    Bus::make(
        alloc,
        clock,
        roms,
        Some(disc),
        None,
        script,
        Vec::new(alloc),
    )
}

// Does an act at tick `t`. Returns the byte that is read, or the number of rises of the NMI line,
// and true if an interrupt is asked for. Returns `None` if the tick is past.
fn told(bus: &mut Bus, t: u64, act: Act) -> Option<(u64, bool)> {
    let t = t % (1 << 40);
    if bus.closed() > t {
        return None;
    }
    let mut byte = 0;
    match act {
        Act::Write(at, v) => bus.write(Tick(t), at, v),
        Act::Read(at) => byte = u64::from(bus.read(Tick(t), at)),
        Act::Look => {
            let asks = bus.irq(Tick(t));
            return Some((bus.nmis_now(), asks));
        }
        Act::Rises => byte = bus.nmis(Tick(t)),
        Act::Put(at, v) => bus.put(t, at % 0x8000, v),
        Act::Close => bus.close(t),
        Act::Settle => bus.finish(Tick(t)),
        Act::Break => {
            if bus.break_pending(Tick(t)) {
                bus.take_break(Tick(t));
            }
        }
    }
    Some((byte, false))
}

// Returns true if both frames exist and have the same colours.
fn are_alike(one: Option<&Frame>, other: Option<&Frame>) -> bool {
    match (one, other) {
        (Some(frame), Some(same)) => frame.colours.iter().eq(same.colours.iter()),
        _ => false,
    }
}

// Both buses. Up to `calm`, the second one's lines are `lines`.
#[derive(Drop)]
struct Both<'a> {
    lagging: &'a mut Bus,
    stepped: &'a mut Bus,
    micro: u64,
    calm: u64,
    lines: (u64, bool),
}

impl Both<'_> {
    // Closes and steps the second bus at each tick up to `t`. Returns true if its lines stay as the
    // first bus guaranteed. Every sixth tick it reads the 6845, which also draws the picture.
    fn step(&mut self, t: u64) -> bool {
        let t = t % (1 << 40);
        let mut stay = true;
        for k in self.stepped.closed()..=t {
            self.stepped.finish(Tick(k));
            if k <= self.calm {
                stay = stay && self.lines == (self.stepped.nmis_now(), self.stepped.irq_now());
            }
            if k < t && k % 6 == 0 {
                let _ = told(self.stepped, k, Act::Read(0xfe00));
            }
        }
        stay
    }

    // Does an act on both buses. Returns true if both give the same result.
    fn agree(&mut self, t: u64, act: Act) -> bool {
        let stay = self.step(t);
        let one = told(self.lagging, t, act);
        let is_same = one.is_some() && one == told(self.stepped, t, act);
        self.calm = self.lagging.calm();
        self.lines = (self.lagging.nmis_now(), self.lagging.irq_now());
        stay && is_same
    }

    // Returns true if both are the same some frames later.
    fn come_to_the_same(&mut self) -> bool {
        let t = self.stepped.closed().wrapping_add(20_000);
        let stay = self.step(t);
        self.lagging.finish(Tick(t % (1 << 40)));
        stay && self.have_the_same_frames() && self.have_the_same_rest()
    }

    fn have_the_same_frames(&self) -> bool {
        let (one, other) = (self.lagging.frames(), self.stepped.frames());
        one.len() == other.len() && (0..one.len()).all(|i| are_alike(one.get(i), other.get(i)))
    }

    fn have_the_same_rest(&self) -> bool {
        let is_same_disc = match (self.lagging.disc(0), self.stepped.disc(0)) {
            (Some(disc), Some(same)) => disc.bytes() == same.bytes(),
            _ => false,
        };
        is_same_disc
            && self.lagging.ram() == self.stepped.ram()
            && self.lagging.sound() == self.stepped.sound()
    }

    // Chooses the next tick, or one near the end of the first bus's guarantee.
    fn near_calm(&self, chance: &mut Chance) -> u64 {
        let next = self.stepped.closed();
        let t = self
            .calm
            .saturating_add(u64::from(chance.below(4)))
            .saturating_sub(2);
        if t >= next && t - next < 6_000 {
            t
        } else {
            next
        }
    }

    // Chooses the tick of the next act.
    fn next(&self, chance: &mut Chance) -> u64 {
        if chance.once_in(8) {
            self.near_calm(chance)
        } else {
            self.stepped.closed().wrapping_add(wait(chance))
        }
    }

    // Returns true if both agree on `acts` random acts.
    fn agree_by_chance(&mut self, chance: &mut Chance, keeps: bool, acts: u64) -> bool {
        for _ in 0..acts {
            let t = self.next(chance);
            let act = act_of(chance, keeps);
            if !self.agree(t, act) {
                return false;
            }
        }
        true
    }

    // Returns true if both agree from their beginning on, and end the same.
    fn agree_on(&mut self, chance: &mut Chance, lists: Lists<'_>, acts: u64) -> bool {
        let screen = !chance.once_in(4);
        let keeps = screen && chance.once_in(2);
        let reads = chance.once_in(4);
        self.agree_on_writes(lists.settings)
            && self.set_palette()
            && (!screen || self.set_screen(lists.screen))
            && (!reads || self.agree_on_writes(lists.sector) && self.see_first_byte(chance))
            && self.agree_by_chance(chance, keeps, acts)
            && self.come_to_the_same()
    }

    // Does an act at the next tick.
    fn agree_next(&mut self, act: Act) -> bool {
        let t = self.stepped.closed();
        self.agree(t, act)
    }

    // Returns true if both agree on the writes.
    fn agree_on_writes(&mut self, writes: &[(u16, u8)]) -> bool {
        for (at, v) in writes {
            if !self.agree_next(Act::Write(*at, *v)) {
                return false;
            }
        }
        true
    }

    // Returns true if both agree on a palette of many colours.
    fn set_palette(&mut self) -> bool {
        for entry in 0..16u8 {
            if !self.agree_next(Act::Write(0xfe21, entry.wrapping_mul(17))) {
                return false;
            }
        }
        true
    }

    // Returns true if both agree at about the first byte of a sector that is read.
    fn see_first_byte(&mut self, chance: &mut Chance) -> bool {
        let first = self.micro.wrapping_mul(FIRST_BYTE);
        let t = first.wrapping_add(u64::from(chance.below(200)));
        self.agree(t, Act::Look)
    }

    // Returns true if both agree on a screen's registers.
    fn set_screen(&mut self, registers: &[(u8, u8)]) -> bool {
        for (register, v) in registers {
            if !self.agree_on_writes(&[(0xfe00, *register), (0xfe01, *v)]) {
                return false;
            }
        }
        true
    }
}

/// The beginning of both buses: the script, the settings, the screen's registers and the read of a
/// sector. They are arguments, so that no long proof writes them out.
#[derive(Clone, Copy)]
pub struct Lists<'a> {
    pub script: &'a [u8],
    pub settings: &'a [(u16, u8)],
    pub screen: &'a [(u8, u8)],
    pub sector: &'a [(u16, u8)],
    /// The number of bytes of a ROM.
    pub size: usize,
}

// The beginning of both buses, and the number of acts to try.
#[derive(Clone, Copy)]
struct Course<'a> {
    clock: Clock,
    lists: Lists<'a>,
    acts: u64,
}

impl Tried<Course<'_>> for Bus {
    fn make(alloc: Global, course: &Course<'_>) -> Result<Self, NoMemory> {
        bus(alloc, course.clock, course.lists.script, course.lists.size)
    }

    fn agrees(
        &mut self,
        other: &mut Self,
        _alloc: Global,
        course: &Course<'_>,
        chance: &mut Chance,
    ) -> Result<bool, NoMemory> {
        let mut both = Both {
            lagging: self,
            stepped: other,
            micro: course.clock.micro(),
            calm: 0,
            lines: (0, false),
        };
        Ok(both.agree_on(chance, course.lists, course.acts))
    }
}

/// Returns true if both buses agree on `acts` acts of a seed, and are the same after them.
pub fn agrees(alloc: Global, seed: u64, acts: u64, lists: Lists<'_>) -> Result<bool, NoMemory> {
    let mut chance = Chance::new(seed, 3);
    let clock = chance.clock();
    let course = Course { clock, lists, acts };
    agree::<Course<'_>, Bus>(alloc, &course, &mut chance)
}
