//! The opcode of a mnemonic in a mode.
ghost use Rattle.std.specs.Prelude.{◌≡◌, ◌↔◌, ℕ};
ghost use Rattle.op_table.specs.Forms.{find_form};
ghost use Rattle.op_table.specs.Rows.{Names};
ghost use Rattle.op_table.specs.declared.names.Mnemonic.{Mnemonic};
ghost use Rattle.op_table.specs.declared.names.Mode.{Mode};
ghost use Rattle.op_table.specs.declared.names.Part.{Part};
ghost use Rattle.op_table.specs.declared.names.Part.TheVariants.{Nmos, Cmos};

use crate::names::{Mnemonic, Mode, Part};
use crate::rows::nmos;

macro_rules! opcode {
    (-) => { None };
    ($op:literal) => { Some($op) };
}

macro_rules! opcodes {
    ($($mnemonic:ident [$($op:tt)*])*) => { [$([$(opcode!($op)),*]),*] };
}

// The opcodes of the 65C02: a line for each mnemonic and a column for each mode, in the order of
// the declarations. The NMOS part has the same opcodes, without those that the 65C02 added.
static OPCODES: [[Option<u8>; 16]; 64] = opcodes![
    //    Imp  Acc  Imm   Zp  ZpX  ZpY  Abs AbsX AbsY IndX IndY IndZp Rel  Ind IndAbsX Spare
    Adc [   -    - 0x69 0x65 0x75    - 0x6D 0x7D 0x79 0x61 0x71 0x72    -    -    -    -]
    And [   -    - 0x29 0x25 0x35    - 0x2D 0x3D 0x39 0x21 0x31 0x32    -    -    -    -]
    Asl [   - 0x0A    - 0x06 0x16    - 0x0E 0x1E    -    -    -    -    -    -    -    -]
    Bcc [   -    -    -    -    -    -    -    -    -    -    -    - 0x90    -    -    -]
    Bcs [   -    -    -    -    -    -    -    -    -    -    -    - 0xB0    -    -    -]
    Beq [   -    -    -    -    -    -    -    -    -    -    -    - 0xF0    -    -    -]
    Bit [   -    - 0x89 0x24 0x34    - 0x2C 0x3C    -    -    -    -    -    -    -    -]
    Bmi [   -    -    -    -    -    -    -    -    -    -    -    - 0x30    -    -    -]
    Bne [   -    -    -    -    -    -    -    -    -    -    -    - 0xD0    -    -    -]
    Bpl [   -    -    -    -    -    -    -    -    -    -    -    - 0x10    -    -    -]
    Bra [   -    -    -    -    -    -    -    -    -    -    -    - 0x80    -    -    -]
    Brk [0x00    -    -    -    -    -    -    -    -    -    -    -    -    -    -    -]
    Bvc [   -    -    -    -    -    -    -    -    -    -    -    - 0x50    -    -    -]
    Bvs [   -    -    -    -    -    -    -    -    -    -    -    - 0x70    -    -    -]
    Clc [0x18    -    -    -    -    -    -    -    -    -    -    -    -    -    -    -]
    Cld [0xD8    -    -    -    -    -    -    -    -    -    -    -    -    -    -    -]
    Cli [0x58    -    -    -    -    -    -    -    -    -    -    -    -    -    -    -]
    Clv [0xB8    -    -    -    -    -    -    -    -    -    -    -    -    -    -    -]
    Cmp [   -    - 0xC9 0xC5 0xD5    - 0xCD 0xDD 0xD9 0xC1 0xD1 0xD2    -    -    -    -]
    Cpx [   -    - 0xE0 0xE4    -    - 0xEC    -    -    -    -    -    -    -    -    -]
    Cpy [   -    - 0xC0 0xC4    -    - 0xCC    -    -    -    -    -    -    -    -    -]
    Dec [   - 0x3A    - 0xC6 0xD6    - 0xCE 0xDE    -    -    -    -    -    -    -    -]
    Dex [0xCA    -    -    -    -    -    -    -    -    -    -    -    -    -    -    -]
    Dey [0x88    -    -    -    -    -    -    -    -    -    -    -    -    -    -    -]
    Eor [   -    - 0x49 0x45 0x55    - 0x4D 0x5D 0x59 0x41 0x51 0x52    -    -    -    -]
    Inc [   - 0x1A    - 0xE6 0xF6    - 0xEE 0xFE    -    -    -    -    -    -    -    -]
    Inx [0xE8    -    -    -    -    -    -    -    -    -    -    -    -    -    -    -]
    Iny [0xC8    -    -    -    -    -    -    -    -    -    -    -    -    -    -    -]
    Jmp [   -    -    -    -    -    - 0x4C    -    -    -    -    -    - 0x6C 0x7C    -]
    Jsr [   -    -    -    -    -    - 0x20    -    -    -    -    -    -    -    -    -]
    Lda [   -    - 0xA9 0xA5 0xB5    - 0xAD 0xBD 0xB9 0xA1 0xB1 0xB2    -    -    -    -]
    Ldx [   -    - 0xA2 0xA6    - 0xB6 0xAE    - 0xBE    -    -    -    -    -    -    -]
    Ldy [   -    - 0xA0 0xA4 0xB4    - 0xAC 0xBC    -    -    -    -    -    -    -    -]
    Lsr [   - 0x4A    - 0x46 0x56    - 0x4E 0x5E    -    -    -    -    -    -    -    -]
    Nop [0xEA    -    -    -    -    -    -    -    -    -    -    -    -    -    -    -]
    Ora [   -    - 0x09 0x05 0x15    - 0x0D 0x1D 0x19 0x01 0x11 0x12    -    -    -    -]
    Pha [0x48    -    -    -    -    -    -    -    -    -    -    -    -    -    -    -]
    Php [0x08    -    -    -    -    -    -    -    -    -    -    -    -    -    -    -]
    Phx [0xDA    -    -    -    -    -    -    -    -    -    -    -    -    -    -    -]
    Phy [0x5A    -    -    -    -    -    -    -    -    -    -    -    -    -    -    -]
    Pla [0x68    -    -    -    -    -    -    -    -    -    -    -    -    -    -    -]
    Plp [0x28    -    -    -    -    -    -    -    -    -    -    -    -    -    -    -]
    Plx [0xFA    -    -    -    -    -    -    -    -    -    -    -    -    -    -    -]
    Ply [0x7A    -    -    -    -    -    -    -    -    -    -    -    -    -    -    -]
    Rol [   - 0x2A    - 0x26 0x36    - 0x2E 0x3E    -    -    -    -    -    -    -    -]
    Ror [   - 0x6A    - 0x66 0x76    - 0x6E 0x7E    -    -    -    -    -    -    -    -]
    Rti [0x40    -    -    -    -    -    -    -    -    -    -    -    -    -    -    -]
    Rts [0x60    -    -    -    -    -    -    -    -    -    -    -    -    -    -    -]
    Sbc [   -    - 0xE9 0xE5 0xF5    - 0xED 0xFD 0xF9 0xE1 0xF1 0xF2    -    -    -    -]
    Sec [0x38    -    -    -    -    -    -    -    -    -    -    -    -    -    -    -]
    Sed [0xF8    -    -    -    -    -    -    -    -    -    -    -    -    -    -    -]
    Sei [0x78    -    -    -    -    -    -    -    -    -    -    -    -    -    -    -]
    Sta [   -    -    - 0x85 0x95    - 0x8D 0x9D 0x99 0x81 0x91 0x92    -    -    -    -]
    Stx [   -    -    - 0x86    - 0x96 0x8E    -    -    -    -    -    -    -    -    -]
    Sty [   -    -    - 0x84 0x94    - 0x8C    -    -    -    -    -    -    -    -    -]
    Stz [   -    -    - 0x64 0x74    - 0x9C 0x9E    -    -    -    -    -    -    -    -]
    Tax [0xAA    -    -    -    -    -    -    -    -    -    -    -    -    -    -    -]
    Tay [0xA8    -    -    -    -    -    -    -    -    -    -    -    -    -    -    -]
    Trb [   -    -    - 0x14    -    - 0x1C    -    -    -    -    -    -    -    -    -]
    Tsb [   -    -    - 0x04    -    - 0x0C    -    -    -    -    -    -    -    -    -]
    Tsx [0xBA    -    -    -    -    -    -    -    -    -    -    -    -    -    -    -]
    Txa [0x8A    -    -    -    -    -    -    -    -    -    -    -    -    -    -    -]
    Txs [0x9A    -    -    -    -    -    -    -    -    -    -    -    -    -    -    -]
    Tya [0x98    -    -    -    -    -    -    -    -    -    -    -    -    -    -    -]
];

fn cmos_opcode(mnemonic: Mnemonic, mode: Mode) -> Option<u8>
    ensures { result ≡ find_form Cmos mnemonic mode }
{
    OPCODES[mnemonic as usize][mode as usize]
}

fn nmos_opcode(mnemonic: Mnemonic, mode: Mode) -> Option<u8>
    ensures { result ≡ find_form Nmos mnemonic mode }
{
    match cmos_opcode(mnemonic, mode) {
        Some(op) if nmos(op).is_some() => Some(op),
        _ => None,
    }
}

/// Returns the documented opcode of a mnemonic in a mode. Returns `None` if the part has no such
/// instruction.
pub fn find(part: Part, mnemonic: Mnemonic, mode: Mode) -> Option<u8>
    ensures names { (op : ℕ) → (result ≡ Some op) ↔ Names part mnemonic mode op }
    ensures form { result ≡ find_form part mnemonic mode }
{
    match part {
        Part::Nmos => nmos_opcode(mnemonic, mode),
        Part::Cmos => cmos_opcode(mnemonic, mode),
    }
}

/// Proves a law of both parts: the forms of the opcode matrix and the rows of the opcodes agree.
pub fn forms_and_rows_agree()
    ensures { (part : Part) (name : Mnemonic) (way : Mode) (op : ℕ) → (find_form part name way ≡ Some op) ↔ Names part name way op }
{}
