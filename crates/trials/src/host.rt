//! The host, an NMOS 6502.
use crate::chance::Chance;
use crate::code::Place;
use crate::roads::{Course, Stands};
use crate::twins::agree;
use beeb_bits::{Clock, NoMemory};
use bus_plug::RamCard;
use cpu_alu::Regs;
use disc_image::{Disc, Kind};
use host_mach::HostMachine;
use key_script::read;
use op_table::Part;
use rom_set::RomSet;
use std::alloc::Global;
use tube_party::{Forward, Party};

// Keys and levels, at ticks of a second processor at 3 MHz and at 4 MHz.
const KEYS: &[u8] = b"at 45500 down 41
at 46300 up 41
at 46500 adc 1 8000
at 49000 down 41
";

const KEYS_AT_4: &[u8] = b"at 91000 down 41
at 91500 up 41
at 92000 adc 2 1234
at 94000 down 23
";

// A break, after which a halted processor runs again too.
const BREAK: &[u8] = b"at 48000 break\n";

const BREAK_AT_4: &[u8] = b"at 93000 break\n";

fn keys(clock: Clock) -> &'static [u8] {
    match clock {
        Clock::Three => KEYS,
        Clock::Four => KEYS_AT_4,
    }
}

fn a_break(clock: Clock) -> &'static [u8] {
    match clock {
        Clock::Three => BREAK,
        Clock::Four => BREAK_AT_4,
    }
}

// Chooses the script of a program.
fn events(chance: &mut Chance, clock: Clock) -> &'static [u8] {
    match chance.below(8) {
        0 => &[],
        1 => a_break(clock),
        _ => keys(clock),
    }
}

// Returns the disc of a course, or `None` if it has none.
fn disc_of(alloc: Global, course: &Course) -> Result<Option<Disc>, NoMemory> {
    if !course.has_disc {
        return Ok(None);
    }
    let bytes = vec![in alloc; 0xa5; 2_560]?;
    Ok(Disc::make(alloc, Kind::Ssd, bytes).ok())
}

/// The host as a party without notes. No device is plugged in.
pub type Host = Forward<HostMachine<RamCard>>;

// Makes the host of a course, with its image as the operating system and as the ROM in slot 0.
fn machine(alloc: Global, course: &Course) -> Result<HostMachine<RamCard>, NoMemory> {
    let disc = disc_of(alloc, course)?;
    let Ok(slots) = vec![in alloc; (0, course.image.to_vec(alloc)?)] else {
        return Err(NoMemory);
    };
    let Ok(roms) = RomSet::read(course.image.to_vec(alloc)?, slots, None) else {
        return Err(NoMemory);
    };
    let Ok(script) = read(alloc, &course.script) else {
        return Err(NoMemory);
    };
    let plugs = Vec::new(alloc);
    HostMachine::make(alloc, course.clock, roms, disc, None, script, plugs)
}

// Makes the same machine as one without notes. Generic, like `agree`.
fn forward<P: Party>(made: Result<P, NoMemory>) -> Result<Forward<P>, NoMemory> {
    Ok(Forward { party: made? })
}

impl Stands for Host {
    fn begun(alloc: Global, course: &Course) -> Result<Host, NoMemory> {
        forward(machine(alloc, course))
    }

    fn part() -> Part {
        Part::Nmos
    }

    fn registers(&self) -> Regs {
        self.party.regs()
    }

    fn is_as(&self, other: &Host) -> bool {
        let one = &self.party;
        let other = &other.party;
        one.regs() == other.regs()
            && one.due() == other.due()
            && one.halted() == other.halted()
            && one.starting() == other.starting()
            && one.ram() == other.ram()
            && one.sound() == other.sound()
    }
}

/// Returns true if both runs of a seed's program end the same.
pub fn agrees(alloc: Global, seed: u64) -> Result<bool, NoMemory> {
    let mut chance = Chance::new(seed, 2);
    let clock = chance.clock();
    let place = Place {
        part: Part::Nmos,
        base: 0xc000,
        page: ((0x02 + chance.below(0x7e)) % 256 * 256) as u16,
    };
    let image = place.image(alloc, &mut chance, 16_384)?;
    let script = events(&mut chance, clock).to_vec(alloc)?;
    let course = Course::of_program(&mut chance, clock, clock.host(), image, script);
    agree::<Course, Host>(alloc, &course, &mut chance)
}
