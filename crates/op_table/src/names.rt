//! The two parts, the addressing modes and the mnemonics.
ghost use Rattle.std.specs.Prelude.{◌≡◌, ◌↔◌, ◌<◌, ◌≤◌, ℕ, List, map, IsTrue};
ghost use Rattle.std.specs.List.{list_all};
ghost use Rattle.std.specs.Char.{to_ascii_uppercase, is_ascii_uppercase};
ghost use Rattle.op_table.specs.Names.{name_of, mnemonic_of};
ghost use Rattle.op_table.specs.Rows.{bytes_of};

/// A part of the 6502 family.
#[derive(Clone, Copy, Debug, PartialEq, Eq)]
pub enum Part {
    /// The NMOS 6502.
    Nmos,
    /// The 65C02 without the bit instructions that some makers added.
    Cmos,
}

/// The place of an instruction's operand.
#[derive(Clone, Copy, Debug, PartialEq, Eq)]
pub enum Mode {
    /// Implied: the instruction has no operand.
    Imp,
    /// The accumulator.
    Acc,
    /// Immediate: the operand is the byte after the opcode.
    Imm,
    /// A zero-page address.
    Zp,
    /// A zero-page address plus X.
    ZpX,
    /// A zero-page address plus Y.
    ZpY,
    /// An absolute address.
    Abs,
    /// An absolute address plus X.
    AbsX,
    /// An absolute address plus Y.
    AbsY,
    /// Indirect through a zero-page address plus X: `(zp,X)`.
    IndX,
    /// Indirect through a zero-page address, then plus Y: `(zp),Y`.
    IndY,
    /// Indirect through a zero-page address: `(zp)`, on the 65C02.
    IndZp,
    /// Relative: a branch to a signed distance from the next instruction.
    Rel,
    /// Indirect through an absolute address: `(abs)`, of a jump.
    Ind,
    /// Indirect through an absolute address plus X: `(abs,X)`, of a jump on the 65C02.
    IndAbsX,
    /// An opcode of the 65C02 that does nothing.
    Spare,
}

/// The instructions of both parts.
#[derive(Clone, Copy, Debug, PartialEq, Eq)]
pub enum Mnemonic {
    /// Add memory and carry to the accumulator.
    Adc,
    /// AND memory with the accumulator.
    And,
    /// Shift left by one bit.
    Asl,
    /// Branch if carry is clear.
    Bcc,
    /// Branch if carry is set.
    Bcs,
    /// Branch if the last result was zero.
    Beq,
    /// Test the bits of memory with the accumulator.
    Bit,
    /// Branch if the last result was negative.
    Bmi,
    /// Branch if the last result wasn't zero.
    Bne,
    /// Branch if the last result wasn't negative.
    Bpl,
    /// Branch always, on the 65C02.
    Bra,
    /// Break: an interrupt by software.
    Brk,
    /// Branch if overflow is clear.
    Bvc,
    /// Branch if overflow is set.
    Bvs,
    /// Clear carry.
    Clc,
    /// Clear decimal mode.
    Cld,
    /// Clear interrupt disable.
    Cli,
    /// Clear overflow.
    Clv,
    /// Compare memory with the accumulator.
    Cmp,
    /// Compare memory with X.
    Cpx,
    /// Compare memory with Y.
    Cpy,
    /// Subtract one from memory, or on the 65C02 from the accumulator.
    Dec,
    /// Subtract one from X.
    Dex,
    /// Subtract one from Y.
    Dey,
    /// Exclusive OR of memory with the accumulator.
    Eor,
    /// Add one to memory, or on the 65C02 to the accumulator.
    Inc,
    /// Add one to X.
    Inx,
    /// Add one to Y.
    Iny,
    /// Jump.
    Jmp,
    /// Jump to a subroutine, its return address on the stack.
    Jsr,
    /// Load the accumulator.
    Lda,
    /// Load X.
    Ldx,
    /// Load Y.
    Ldy,
    /// Shift right by one bit, zero shifted in.
    Lsr,
    /// No operation.
    Nop,
    /// OR memory with the accumulator.
    Ora,
    /// Push the accumulator.
    Pha,
    /// Push the status register.
    Php,
    /// Push X, on the 65C02.
    Phx,
    /// Push Y, on the 65C02.
    Phy,
    /// Pull the accumulator.
    Pla,
    /// Pull the status register.
    Plp,
    /// Pull X, on the 65C02.
    Plx,
    /// Pull Y, on the 65C02.
    Ply,
    /// Rotate left by one bit through carry.
    Rol,
    /// Rotate right by one bit through carry.
    Ror,
    /// Return from an interrupt.
    Rti,
    /// Return from a subroutine.
    Rts,
    /// Subtract memory and borrow from the accumulator.
    Sbc,
    /// Set carry.
    Sec,
    /// Set decimal mode.
    Sed,
    /// Set interrupt disable.
    Sei,
    /// Store the accumulator.
    Sta,
    /// Store X.
    Stx,
    /// Store Y.
    Sty,
    /// Store zero, on the 65C02.
    Stz,
    /// Transfer the accumulator to X.
    Tax,
    /// Transfer the accumulator to Y.
    Tay,
    /// Test and reset bits of memory, on the 65C02.
    Trb,
    /// Test and set bits of memory, on the 65C02.
    Tsb,
    /// Transfer the stack pointer to X.
    Tsx,
    /// Transfer X to the accumulator.
    Txa,
    /// Transfer X to the stack pointer.
    Txs,
    /// Transfer Y to the accumulator.
    Tya,
}

// The names in the order of the declaration of the mnemonics.
static NAMES: [(Mnemonic, [u8; 3]); 64] = [
    (Mnemonic::Adc, *b"ADC"),
    (Mnemonic::And, *b"AND"),
    (Mnemonic::Asl, *b"ASL"),
    (Mnemonic::Bcc, *b"BCC"),
    (Mnemonic::Bcs, *b"BCS"),
    (Mnemonic::Beq, *b"BEQ"),
    (Mnemonic::Bit, *b"BIT"),
    (Mnemonic::Bmi, *b"BMI"),
    (Mnemonic::Bne, *b"BNE"),
    (Mnemonic::Bpl, *b"BPL"),
    (Mnemonic::Bra, *b"BRA"),
    (Mnemonic::Brk, *b"BRK"),
    (Mnemonic::Bvc, *b"BVC"),
    (Mnemonic::Bvs, *b"BVS"),
    (Mnemonic::Clc, *b"CLC"),
    (Mnemonic::Cld, *b"CLD"),
    (Mnemonic::Cli, *b"CLI"),
    (Mnemonic::Clv, *b"CLV"),
    (Mnemonic::Cmp, *b"CMP"),
    (Mnemonic::Cpx, *b"CPX"),
    (Mnemonic::Cpy, *b"CPY"),
    (Mnemonic::Dec, *b"DEC"),
    (Mnemonic::Dex, *b"DEX"),
    (Mnemonic::Dey, *b"DEY"),
    (Mnemonic::Eor, *b"EOR"),
    (Mnemonic::Inc, *b"INC"),
    (Mnemonic::Inx, *b"INX"),
    (Mnemonic::Iny, *b"INY"),
    (Mnemonic::Jmp, *b"JMP"),
    (Mnemonic::Jsr, *b"JSR"),
    (Mnemonic::Lda, *b"LDA"),
    (Mnemonic::Ldx, *b"LDX"),
    (Mnemonic::Ldy, *b"LDY"),
    (Mnemonic::Lsr, *b"LSR"),
    (Mnemonic::Nop, *b"NOP"),
    (Mnemonic::Ora, *b"ORA"),
    (Mnemonic::Pha, *b"PHA"),
    (Mnemonic::Php, *b"PHP"),
    (Mnemonic::Phx, *b"PHX"),
    (Mnemonic::Phy, *b"PHY"),
    (Mnemonic::Pla, *b"PLA"),
    (Mnemonic::Plp, *b"PLP"),
    (Mnemonic::Plx, *b"PLX"),
    (Mnemonic::Ply, *b"PLY"),
    (Mnemonic::Rol, *b"ROL"),
    (Mnemonic::Ror, *b"ROR"),
    (Mnemonic::Rti, *b"RTI"),
    (Mnemonic::Rts, *b"RTS"),
    (Mnemonic::Sbc, *b"SBC"),
    (Mnemonic::Sec, *b"SEC"),
    (Mnemonic::Sed, *b"SED"),
    (Mnemonic::Sei, *b"SEI"),
    (Mnemonic::Sta, *b"STA"),
    (Mnemonic::Stx, *b"STX"),
    (Mnemonic::Sty, *b"STY"),
    (Mnemonic::Stz, *b"STZ"),
    (Mnemonic::Tax, *b"TAX"),
    (Mnemonic::Tay, *b"TAY"),
    (Mnemonic::Trb, *b"TRB"),
    (Mnemonic::Tsb, *b"TSB"),
    (Mnemonic::Tsx, *b"TSX"),
    (Mnemonic::Txa, *b"TXA"),
    (Mnemonic::Txs, *b"TXS"),
    (Mnemonic::Tya, *b"TYA"),
];

impl Mode {
    /// Returns the number of bytes of an instruction in this mode, its opcode included: 1 to 3. The
    /// opcodes of mode `Spare` differ, and count as two here; `cmos` has the number of each.
    pub fn length(self) -> u8
        ensures value { result ≡ bytes_of self }
        ensures within { (0 < result) × (result ≤ 3) }
    {
        match self {
            Mode::Imp | Mode::Acc => 1,
            Mode::Abs | Mode::AbsX | Mode::AbsY | Mode::Ind | Mode::IndAbsX => 3,
            Mode::Imm
            | Mode::Zp
            | Mode::ZpX
            | Mode::ZpY
            | Mode::IndX
            | Mode::IndY
            | Mode::IndZp
            | Mode::Rel
            | Mode::Spare => 2,
        }
    }
}

impl Mnemonic {
    /// Returns the three letters of the name, in upper case.
    pub fn name(self) -> [u8; 3]
        ensures { result ≡ name_of self }
    {
        NAMES[self as usize].1
    }

    /// Returns the mnemonic with the name `text`, in upper or lower case. Returns `None` for any
    /// other text.
    pub fn of_name(text: &[u8]) -> Option<Mnemonic>
        ensures named { (m : Mnemonic) → (result ≡ Some m) ↔ (map to_ascii_uppercase text.now ≡ name_of m) }
        ensures value { result ≡ mnemonic_of text.now }
    {
        let [first, second, third] = text else {
            return None;
        };
        named([
            first.to_ascii_uppercase(),
            second.to_ascii_uppercase(),
            third.to_ascii_uppercase(),
        ])
    }
}

// Returns the mnemonic with the name `upper`, in upper case.
fn named(upper: [u8; 3]) -> Option<Mnemonic>
    ensures { (m : Mnemonic) → (result ≡ Some m) ↔ (upper ≡ name_of m) }
{
    for &(mnemonic, name) in &NAMES {
        if name == upper {
            return Some(mnemonic);
        }
    }
    None
}

/// Proves a law of the names: the letters of a mnemonic, in either case, name it. The name leads
/// back to the mnemonic and consists of capital letters.
pub fn names_lead_back()
    ensures read { (text : List ℕ) (m : Mnemonic) → (mnemonic_of text ≡ Some m) ↔ (map to_ascii_uppercase text ≡ name_of m) }
    ensures back { (m : Mnemonic) → mnemonic_of (name_of m) ≡ Some m }
    ensures letters { (m : Mnemonic) → IsTrue (list_all is_ascii_uppercase (name_of m)) }
{}
