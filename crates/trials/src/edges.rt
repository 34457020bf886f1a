//! Each opcode of both processors with its operand at each edge, and often with the instruction,
//! its pointer or its stack at one. Interrupts, resets and breaks come after any tick of it.
use crate::chance::Chance;
use crate::code::{EDGES, halves, row_at};
use crate::host::Host;
use crate::roads::Course;
use crate::setting::Setting;
use crate::twins::agree;
use beeb_bits::{Clock, NoMemory};
use cpu_alu::Regs;
use op_table::{Mnemonic, Mode, Part};
use para_mach::ParaMachine;
use std::alloc::Global;

// Bytes near the ends of a page, of the zero page and of the stack.
const ENDS: [u8; 8] = [0x00, 0x01, 0x7f, 0x80, 0x81, 0xfd, 0xfe, 0xff];

fn any_byte(chance: &mut Chance) -> u8 {
    let byte = chance.byte();
    if chance.once_in(2) {
        byte
    } else {
        ENDS[(byte % 8) as usize]
    }
}

// Chooses the instruction's address: in the RAM, in the stack, or with its first or last byte at an
// edge.
fn any_place(chance: &mut Chance) -> u16 {
    match chance.below(4) {
        0 => 0x0100 + u16::from(chance.byte()),
        1 => chance
            .among(&EDGES)
            .wrapping_sub((chance.below(4) % 4) as u16),
        _ => 0x0400,
    }
}

// Chooses the registers at its beginning. If it is in the stack, pushes mostly reach it.
fn any_registers(chance: &mut Chance) -> Regs {
    let pc = any_place(chance);
    let s = if pc / 256 == 1 && !chance.once_in(4) {
        halves(pc)[0].wrapping_add((chance.below(4) % 4) as u8)
    } else {
        any_byte(chance)
    };
    Regs {
        pc,
        a: any_byte(chance),
        x: any_byte(chance),
        y: any_byte(chance),
        s,
        p: chance.byte(),
    }
}

// An instruction with its registers. Its operand is at an edge, through a pointer if it has one.
#[derive(Clone, Copy)]
struct Case {
    part: Part,
    op: u8,
    r: Regs,
    edge: u16,
    pointer: u8,
}

impl Case {
    // Returns the bytes after the opcode that bring the operand to the edge.
    fn operand(&self, mode: Mode) -> u16 {
        let x = u16::from(self.r.x);
        let y = u16::from(self.r.y);
        match mode {
            Mode::ZpX | Mode::AbsX | Mode::IndAbsX => self.edge.wrapping_sub(x),
            Mode::ZpY | Mode::AbsY => self.edge.wrapping_sub(y),
            Mode::IndX => u16::from(self.pointer).wrapping_sub(x),
            Mode::IndY | Mode::IndZp => u16::from(self.pointer),
            _ => self.edge,
        }
    }

    // Places the pointer, or, for a jump, the one at the edge.
    fn place_pointer(&self, mode: Mode, setting: &mut Setting) {
        let to = match mode {
            Mode::IndX | Mode::IndZp => halves(self.edge),
            Mode::IndY => halves(self.edge.wrapping_sub(u16::from(self.r.y))),
            Mode::Ind | Mode::IndAbsX => return setting.place(self.edge, &[0x80, 0x04]),
            _ => return,
        };
        setting.place(u16::from(self.pointer), &[to[0]]);
        setting.place(u16::from(self.pointer.wrapping_add(1)), &[to[1]]);
    }

    // Writes the bytes that RTS or RTI pulls.
    fn place_stack(&self, mnemonic: Mnemonic, setting: &mut Setting) {
        let to = halves(self.edge);
        let pulled = match mnemonic {
            Mnemonic::Rts => [to[0], to[1], 0],
            _ => [self.r.p ^ 4, to[0], to[1]],
        };
        let mut s = self.r.s;
        for byte in pulled {
            s = s.wrapping_add(1);
            setting.place(0x100 + u16::from(s), &[byte]);
        }
    }

    // Writes the instruction, a random one, INX, and a JMP to the random one.
    fn place_code(&self, chance: &mut Chance, bytes: u8, operand: u16, setting: &mut Setting) {
        let operand = halves(operand);
        let code = [self.op, operand[0], operand[1]];
        setting.place(self.r.pc, code.get(..usize::from(bytes)).unwrap_or(&code));
        let behind = self.r.pc.wrapping_add(u16::from(bytes));
        let other = halves(chance.among(&EDGES));
        let again = halves(behind);
        setting.place(
            behind,
            &[
                chance.byte(),
                other[0],
                other[1],
                0xe8,
                0x4c,
                again[0],
                again[1],
            ],
        );
    }

    // Writes all memory that the instruction uses.
    fn place(&self, chance: &mut Chance, setting: &mut Setting) {
        match row_at(self.part, self.op) {
            None => self.place_code(chance, 1, 0, setting),
            Some(row) => {
                if let Mnemonic::Rts | Mnemonic::Rti = row.mnemonic {
                    self.place_stack(row.mnemonic, setting);
                }
                self.place_pointer(row.mode, setting);
                self.place_code(chance, row.bytes, self.operand(row.mode), setting);
            }
        }
    }
}

// Returns code that makes timer 1 of the system's 6522 ask for an IRQ some microseconds later: LDA
// #7F, STA FE4E, LDA #C0, STA FE4E, LDA #, STA FE44, LDA #0, STA FE45.
fn start_timer(count: u8) -> [u8; 20] {
    [
        0xa9, 0x7f, 0x8d, 0x4e, 0xfe, 0xa9, 0xc0, 0x8d, 0x4e, 0xfe, 0xa9, count, 0x8d, 0x44, 0xfe,
        0xa9, 0x00, 0x8d, 0x45, 0xfe,
    ]
}

// LDA #29, STA FE80, LDA #0, STA FE85, LDA #1, STA FE86, LDA #80, STA FE84: a sector is read, and
// each byte asks for an NMI.
const READ_SECTOR: [u8; 20] = [
    0xa9, 0x29, 0x8d, 0x80, 0xfe, 0xa9, 0x00, 0x8d, 0x85, 0xfe, 0xa9, 0x01, 0x8d, 0x86, 0xfe, 0xa9,
    0x80, 0x8d, 0x84, 0xfe,
];

// The first microsecond at which a byte of the sector may come. One comes every 64.
const FIRST_BYTE: u64 = 21_900;

// Puts code that starts a device before a host's program: the entry code jumps to `code`.
fn enter_by(setting: &mut Setting, r: &Regs, code: &[u8]) {
    let to = halves(r.pc);
    setting.patch(0xf000, code);
    setting.patch(
        0xf000_u16.wrapping_add((code.len() % 256) as u16),
        &[0x4c, to[0], to[1]],
    );
    setting.enter(&Regs { pc: 0xf000, ..*r });
}

// The number of cycles of a case.
const CYCLES: u32 = 130;

// The number of these cycles in which lines may begin to change, or a break may come.
const ASKED: u32 = 36;

fn cycle_of(part: Part, clock: Clock) -> u64 {
    match part {
        Part::Nmos => clock.host(),
        Part::Cmos => clock.para(),
    }
}

// Makes the course of a case.
fn course(alloc: Global, chance: &mut Chance, case: Case) -> Result<Course, NoMemory> {
    let clock = chance.clock();
    let mut setting = Setting::new(alloc, case.part)?;
    case.place(chance, &mut setting);
    let mut has_disc = false;
    let mut cycles = CYCLES;
    match (case.part, chance.below(64)) {
        (Part::Nmos, 0) => {
            enter_by(&mut setting, &case.r, &READ_SECTOR);
            has_disc = true;
        }
        (Part::Nmos, 1..=16) => {
            let count = chance.byte() % 60;
            enter_by(&mut setting, &case.r, &start_timer(count));
            cycles = CYCLES + 2 * u32::from(count);
        }
        _ => setting.enter(&case.r),
    }
    let cycle = cycle_of(case.part, clock);
    let begun = if has_disc {
        clock.micro() * (FIRST_BYTE + u64::from(chance.below(200)))
    } else {
        cycle.saturating_mul(setting.cycles)
    };
    let from = begun.saturating_add(cycle.saturating_mul(u64::from(chance.below(ASKED))));
    let script = if chance.once_in(8) {
        break_at(alloc, from)?
    } else {
        Vec::new(alloc)
    };
    Ok(Course {
        clock,
        image: setting.image,
        script,
        has_disc,
        begun,
        from,
        middle: begun.saturating_add(u64::from(chance.below(256))),
        end: begun.saturating_add(cycle.saturating_mul(u64::from(cycles))),
    })
}

// Returns the script of a break at a tick.
fn break_at(alloc: Global, tick: u64) -> Result<Vec<u8>, NoMemory> {
    let Ok(text) = format!(in alloc; "at {tick} break\n") else {
        return Err(NoMemory);
    };
    Ok(text.as_bytes().to_vec(alloc)?)
}

/// Returns true if both runs of a seed's case end the same. 20,480 successive seeds have each
/// opcode of both processors and each edge.
pub fn agrees(alloc: Global, seed: u64) -> Result<bool, NoMemory> {
    let mut chance = Chance::new(seed, 4);
    let part = if seed % 2 == 0 {
        Part::Cmos
    } else {
        Part::Nmos
    };
    let r = any_registers(&mut chance);
    let edge = EDGES[(seed / 512 % 40) as usize];
    let case = Case {
        part,
        op: (seed / 2 % 256) as u8,
        // at times the instruction itself
        edge: if chance.once_in(8) {
            r.pc.wrapping_add((chance.below(4) % 4) as u16)
        } else {
            edge
        },
        r,
        pointer: any_byte(&mut chance),
    };
    let course = course(alloc, &mut chance, case)?;
    match part {
        Part::Cmos => agree::<Course, ParaMachine>(alloc, &course, &mut chance),
        Part::Nmos => agree::<Course, Host>(alloc, &course, &mut chance),
    }
}
