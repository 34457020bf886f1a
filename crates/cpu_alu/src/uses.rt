//! The use of the bus by an instruction.
ghost use Rattle.std.specs.Prelude.{◌≡◌};
ghost use Rattle.cpu_alu.specs.Instructions.{bus_use};

use op_table::Mnemonic;

/// The use of the bus by an instruction.
#[derive(Clone, Copy, Debug, PartialEq, Eq)]
pub enum BusUse {
    /// No operand.
    Implied,
    /// A read of the operand.
    Reads,
    /// A write of the operand.
    Stores,
    /// A shift of the operand, or of A.
    Shifts,
    /// A read of the operand and a write back, without a shift.
    Modifies,
    /// A push of a byte.
    Pushes,
    /// A pull of a byte.
    Pulls,
    /// A branch.
    Branches,
    /// JMP.
    Jumps,
    /// JSR.
    Calls,
    /// RTS.
    Returns,
    /// RTI.
    Resumes,
    /// BRK.
    Breaks,
}

/// Returns the use of the bus by an instruction.
#[inline]
pub fn bus_use(mnemonic: Mnemonic) -> BusUse
    ensures { result ≡ bus_use mnemonic }
{
    match mnemonic {
        Mnemonic::Adc
        | Mnemonic::And
        | Mnemonic::Bit
        | Mnemonic::Cmp
        | Mnemonic::Cpx
        | Mnemonic::Cpy
        | Mnemonic::Eor
        | Mnemonic::Lda
        | Mnemonic::Ldx
        | Mnemonic::Ldy
        | Mnemonic::Ora
        | Mnemonic::Sbc => BusUse::Reads,
        Mnemonic::Sta | Mnemonic::Stx | Mnemonic::Sty | Mnemonic::Stz => BusUse::Stores,
        Mnemonic::Asl | Mnemonic::Lsr | Mnemonic::Rol | Mnemonic::Ror => BusUse::Shifts,
        Mnemonic::Inc | Mnemonic::Dec | Mnemonic::Trb | Mnemonic::Tsb => BusUse::Modifies,
        Mnemonic::Pha | Mnemonic::Php | Mnemonic::Phx | Mnemonic::Phy => BusUse::Pushes,
        Mnemonic::Pla | Mnemonic::Plp | Mnemonic::Plx | Mnemonic::Ply => BusUse::Pulls,
        Mnemonic::Bcc
        | Mnemonic::Bcs
        | Mnemonic::Beq
        | Mnemonic::Bmi
        | Mnemonic::Bne
        | Mnemonic::Bpl
        | Mnemonic::Bra
        | Mnemonic::Bvc
        | Mnemonic::Bvs => BusUse::Branches,
        Mnemonic::Jmp => BusUse::Jumps,
        Mnemonic::Jsr => BusUse::Calls,
        Mnemonic::Rts => BusUse::Returns,
        Mnemonic::Rti => BusUse::Resumes,
        Mnemonic::Brk => BusUse::Breaks,
        _ => BusUse::Implied,
    }
}
