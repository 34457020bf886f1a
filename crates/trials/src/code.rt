//! Images of random programs.
//!
//! The first 1,024 bytes of an image are repeated up to its end: 256 bytes that begin with the
//! program's entry code, two pages of instructions, and a page of addresses, which becomes the zero
//! page and the stack.
use crate::chance::Chance;
use op_table::{Mnemonic, Mode, Part, Row, cmos, nmos};
use std::alloc::{AllocError, Global};

/// The addresses at which pages or devices begin and end, or memory wraps.
pub const EDGES: [u16; 40] = [
    0x0000, 0x0001, 0x00fe, 0x00ff, 0x0100, 0x01fe, 0x01ff, 0x0200, 0x02ff, 0x7ffe, 0x7fff, 0x8000,
    0xbfff, 0xc000, 0xf7ff, 0xf800, 0xf8ff, 0xfbfe, 0xfbff, 0xfc00, 0xfdff, 0xfe00, 0xfe01, 0xfe21,
    0xfe30, 0xfe44, 0xfe45, 0xfe4d, 0xfe4e, 0xfedf, 0xfee0, 0xfee1, 0xfef7, 0xfef8, 0xfef9, 0xfeff,
    0xff00, 0xfffa, 0xfffe, 0xffff,
];

/// The addresses in a program's instructions: the image's beginning, and the RAM page that also has
/// the second page of instructions.
#[derive(Clone, Copy)]
pub struct Place {
    pub part: Part,
    pub base: u16,
    pub page: u16,
}

/// Writes bytes from `start` on, as far as there is room.
pub fn put(bytes: &mut [u8], start: usize, part: &[u8]) {
    for (i, byte) in part.iter().enumerate() {
        if let Some(at) = bytes.get_mut(start.wrapping_add(i)) {
            *at = *byte;
        }
    }
}

/// Returns the low byte and the high byte.
pub fn halves(address: u16) -> [u8; 2] {
    [(address % 256) as u8, (address / 256) as u8]
}

/// Returns the instruction of an opcode.
pub fn row_at(part: Part, op: u8) -> Option<Row> {
    match part {
        Part::Nmos => nmos(op),
        Part::Cmos => Some(cmos(op)),
    }
}

impl Place {
    // Chooses an edge, or an address a little below one, so that an index reaches it.
    fn edge(self, chance: &mut Chance) -> u16 {
        let at = chance.among(&EDGES);
        match chance.below(4) {
            0 => at.wrapping_sub(u16::from(chance.byte())),
            1 => at.wrapping_sub((chance.below(4) % 4) as u16),
            _ => at,
        }
    }

    // Chooses an address in the instructions, of the image or of the page in the RAM.
    fn code(self, chance: &mut Chance) -> u16 {
        let from = if chance.once_in(2) {
            self.page
        } else {
            self.base.wrapping_add(0x100)
        };
        from.wrapping_add(u16::from(chance.byte()))
    }

    fn address(self, chance: &mut Chance) -> u16 {
        match chance.below(8) {
            0 | 1 | 2 => self.edge(chance),
            3 | 4 => self.code(chance),
            _ => chance.memory(),
        }
    }

    // Chooses a jump's target: mostly instructions.
    fn target(self, chance: &mut Chance) -> u16 {
        if chance.once_in(16) {
            self.edge(chance)
        } else {
            self.code(chance)
        }
    }

    // Chooses an opcode, mostly one with an instruction.
    fn opcode(self, chance: &mut Chance) -> u8 {
        if chance.once_in(1024) {
            return chance.byte();
        }
        for _ in 0..8u8 {
            let op = chance.byte();
            if row_at(self.part, op).is_some() {
                return op;
            }
        }
        0xea
    }

    // Chooses the bytes after an opcode. Most of those that are no addresses are opcodes too, for a
    // jump into the middle of an instruction.
    fn operand(self, chance: &mut Chance, op: u8) -> [u8; 2] {
        let Some(row) = row_at(self.part, op) else {
            return [0xea, 0xea];
        };
        match row.mode {
            // Most branches are short.
            Mode::Rel if chance.once_in(4) => [chance.byte(), 0xea],
            Mode::Rel => [chance.byte() % 16, 0xea],
            Mode::Abs => match row.mnemonic {
                Mnemonic::Jmp | Mnemonic::Jsr => halves(self.target(chance)),
                _ => halves(self.address(chance)),
            },
            Mode::AbsX | Mode::AbsY | Mode::Ind | Mode::IndAbsX => halves(self.address(chance)),
            Mode::Imm => [self.opcode(chance), 0xea],
            _ => {
                if chance.once_in(4) {
                    halves(chance.among(&[0x00, 0xff, 0xfe, 0x80]))
                } else {
                    [self.opcode(chance), 0xea]
                }
            }
        }
    }

    // Fills the bytes below `end` with instructions.
    fn fill(self, chance: &mut Chance, bytes: &mut [u8], end: usize) {
        let mut at = 0;
        for _ in 0..end {
            if at >= end {
                return;
            }
            let op = self.opcode(chance);
            let length = match row_at(self.part, op) {
                Some(row) => row.mode.length(),
                None => 1,
            };
            put(bytes, at, &[op]);
            put(bytes, at.wrapping_add(1), &self.operand(chance, op));
            at = at.wrapping_add(usize::from(length));
        }
    }

    // Writes the program's entry code. It copies the pages, so that all of them are in RAM if the
    // image can be switched out, and sets the registers.
    fn way_in(self, chance: &mut Chance, bytes: &mut [u8]) {
        let base = halves(self.base)[1];
        let page = halves(self.page)[1];
        let second = base.wrapping_add(1);
        let third = base.wrapping_add(2);
        let last = base.wrapping_add(3);
        // LDX #0; 0100 of the image in place, 0300 to the zero page and the stack
        put(bytes, 0, &[0xa2, 0, 0xbd, 0, second, 0x9d, 0, second]);
        put(bytes, 8, &[0xbd, 0, last, 0x95, 0, 0x9d, 0, 1]);
        // 0200 to the page and in place
        put(bytes, 16, &[0xbd, 0, third, 0x9d, 0, page, 0x9d, 0, third]);
        // the entry code itself, and the vectors
        put(bytes, 25, &[0xbd, 0, base, 0x9d, 0, base]);
        put(bytes, 31, &[0xbd, 0, 0xff, 0x9d, 0, 0xff]);
        // INX, BNE
        put(bytes, 37, &[0xe8, 0xd0, 0xda]);
        // LDX #, TXS, LDA #, PHA, LDX #, LDY #, LDA #, PLP, JMP
        put(
            bytes,
            40,
            &[0xa2, chance.byte(), 0x9a, 0xa9, chance.byte(), 0x48],
        );
        put(
            bytes,
            46,
            &[
                0xa2,
                chance.byte(),
                0xa0,
                chance.byte(),
                0xa9,
                chance.byte(),
                0x28,
            ],
        );
        let to = halves(self.target(chance));
        put(bytes, 53, &[0x4c, to[0], to[1]]);
    }

    // Makes the bytes that an image repeats.
    fn pages(self, alloc: Global, chance: &mut Chance) -> Result<Vec<u8>, AllocError> {
        let mut bytes = vec![in alloc; 0; 1024]?;
        self.fill(chance, &mut bytes, 0x300);
        self.way_in(chance, &mut bytes);
        // after the last instruction, JMP to the first
        let again = halves(self.base)[1].wrapping_add(1);
        put(&mut bytes, 0x2fd, &[0x4c, 0, again]);
        for i in 0..128usize {
            put(&mut bytes, 0x300 + 2 * i, &halves(self.edge(chance)));
        }
        Ok(bytes)
    }

    /// Makes an image of `size` bytes that ends at address FFFF.
    pub fn image(
        self,
        alloc: Global,
        chance: &mut Chance,
        size: usize,
    ) -> Result<Vec<u8>, AllocError> {
        let pages = self.pages(alloc, chance)?;
        let mut image = vec![in alloc; 0; size]?;
        for (place, byte) in image.iter_mut().enumerate() {
            *byte = pages.get(place % 1024).copied().unwrap_or(0);
        }
        let vectors = image.len().wrapping_sub(6);
        put(&mut image, vectors, &halves(self.code(chance)));
        put(&mut image, vectors.wrapping_add(2), &halves(self.base));
        put(
            &mut image,
            vectors.wrapping_add(4),
            &halves(self.code(chance)),
        );
        Ok(image)
    }
}
