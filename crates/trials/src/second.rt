//! The second processor, a 65C02.
use crate::chance::Chance;
use crate::code::Place;
use crate::roads::{Course, Stands};
use crate::twins::agree;
use beeb_bits::NoMemory;
use cpu_alu::Regs;
use op_table::Part;
use para_mach::ParaMachine;
use std::alloc::Global;
use tube_party::Party;

impl Stands for ParaMachine {
    fn begun(alloc: Global, course: &Course) -> Result<ParaMachine, NoMemory> {
        match ParaMachine::make(alloc, course.clock, course.image.to_vec(alloc)?) {
            Ok(machine) => Ok(machine),
            Err(_) => Err(NoMemory),
        }
    }

    fn part() -> Part {
        Part::Cmos
    }

    fn registers(&self) -> Regs {
        self.regs()
    }

    fn is_as(&self, other: &ParaMachine) -> bool {
        self.regs() == other.regs()
            && self.due() == other.due()
            && self.held() == other.held()
            && self.starting() == other.starting()
            && self.ram() == other.ram()
            && self.peek(0xf800) == other.peek(0xf800)
    }
}

/// Returns true if both runs of a seed's program end the same.
pub fn agrees(alloc: Global, seed: u64) -> Result<bool, NoMemory> {
    let mut chance = Chance::new(seed, 1);
    let clock = chance.clock();
    let page = if chance.once_in(2) {
        0x02 + chance.below(0x7e)
    } else {
        0xf8 + chance.below(3)
    };
    let place = Place {
        part: Part::Cmos,
        base: 0xf800,
        page: ((page % 256) * 256) as u16,
    };
    let image = place.image(alloc, &mut chance, 2_048)?;
    let script = Vec::new(alloc);
    let course = Course::of_program(&mut chance, clock, clock.para(), image, script);
    agree::<Course, ParaMachine>(alloc, &course, &mut chance)
}
