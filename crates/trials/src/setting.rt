//! The memory of a machine when an instruction begins, as an image with entry code that writes it.
use crate::code::{halves, put};
use beeb_bits::NoMemory;
use cpu_alu::Regs;
use op_table::Part;
use std::alloc::Global;

// The image's offsets of the entry code, and of the handlers of an NMI and of an IRQ or BRK.
const WAY_IN: u16 = 0x100;

const AT_NMI: u16 = 0x40;

const AT_IRQ: u16 = 0x60;

// PHA, LDA FE87, which lets a host's disc controller release its line, STA 0330, INC 70, PLA, RTI
const NMI: [u8; 11] = [
    0x48, 0xad, 0x87, 0xfe, 0x8d, 0x30, 0x03, 0xe6, 0x70, 0x68, 0x40,
];

// LDA FE44, which clears the flag of a host's timer, INC 71, RTI
const IRQ: [u8; 6] = [0xad, 0x44, 0xfe, 0xe6, 0x71, 0x40];

// Returns the number of bytes of an image, which ends at FFFF.
fn size_of(part: Part) -> usize {
    match part {
        Part::Nmos => 16_384,
        Part::Cmos => 2_048,
    }
}

// Returns the image's first address.
fn base_of(part: Part) -> u16 {
    match part {
        Part::Nmos => 0xc000,
        Part::Cmos => 0xf800,
    }
}

/// Returns true if `pc` is the handler of an NMI, or of an IRQ or BRK.
pub fn is_handler(part: Part, pc: u16) -> bool {
    let at = pc.wrapping_sub(base_of(part));
    at == AT_NMI || at == AT_IRQ
}

/// An image, and the number of bytes of its entry code.
#[derive(Drop)]
pub struct Setting {
    part: Part,
    pub image: Vec<u8>,
    way: u16,
    /// The cycles of the entry code, and of the reset before it.
    pub cycles: u64,
}

impl Setting {
    /// Makes an image of zeroes with the interrupt handlers.
    pub fn new(alloc: Global, part: Part) -> Result<Setting, NoMemory> {
        let image = vec![in alloc; 0; size_of(part)]?;
        let base = base_of(part);
        let mut setting = Setting {
            part,
            image,
            way: WAY_IN,
            cycles: 7,
        };
        let way_in = halves(base.wrapping_add(WAY_IN));
        setting.patch(0xfffc, &way_in);
        setting.handle(0xfffa, base.wrapping_add(AT_NMI), &NMI);
        setting.handle(0xfffe, base.wrapping_add(AT_IRQ), &IRQ);
        Ok(setting)
    }

    // Writes a vector, and the code that it names.
    fn handle(&mut self, vector: u16, at: u16, code: &[u8]) {
        let to = halves(at);
        self.place(at, code);
        self.place(vector, &to);
    }

    /// Writes bytes of the image, from the offset of address `at` on.
    pub fn patch(&mut self, at: u16, bytes: &[u8]) {
        let size = self.image.len().max(1);
        put(&mut self.image, at as usize % size, bytes);
    }

    // Adds instructions that take `cycles` cycles to the entry code.
    fn then(&mut self, code: &[u8], cycles: u64) {
        let way = base_of(self.part).wrapping_add(self.way);
        self.patch(way, code);
        self.way = self.way.wrapping_add((code.len() % 256) as u16);
        self.cycles = self.cycles.saturating_add(cycles);
    }

    // Puts a byte at an address: in the image, which a host also sees in slot 0, and in the RAM if
    // there is RAM.
    fn put(&mut self, at: u16, byte: u8) {
        let (rom, is_ram) = match self.part {
            Part::Nmos => (0x8000, at < 0x8000),
            Part::Cmos => (0xf800, at < 0xfef8 || at >= 0xff00),
        };
        if at >= rom {
            self.patch(at, &[byte]);
        }
        if is_ram {
            let to = halves(at);
            // LDA #, STA
            self.then(&[0xa9, byte, 0x8d, to[0], to[1]], 6);
        }
    }

    /// Puts bytes at addresses from `at` on; 0000 follows FFFF.
    pub fn place(&mut self, at: u16, bytes: &[u8]) {
        let mut at = at;
        for byte in bytes {
            self.put(at, *byte);
            at = at.wrapping_add(1);
        }
    }

    /// Ends the entry code with these registers. It leaves P below the top of the stack.
    pub fn enter(&mut self, r: &Regs) {
        let to = halves(r.pc);
        // LDX #, TXS, LDA #, PHA, LDX #, LDY #, LDA #, PLP, JMP
        self.then(&[0xa2, r.s, 0x9a, 0xa9, r.p, 0x48], 9);
        self.then(&[0xa2, r.x, 0xa0, r.y, 0xa9, r.a, 0x28], 10);
        self.then(&[0x4c, to[0], to[1]], 3);
    }
}
