//! Operations found by comparisons with the order of the mnemonics, which take less time than a
//! mispredicted jump through a table. Each operation is called with its own mnemonic, a constant,
//! so that the compiler keeps that operation alone.
ghost use Rattle.std.specs.Prelude.{◌≡◌, true, false, not};
ghost use Rattle.cpu_alu.specs.Arithmetic.{adc, sbc};
ghost use Rattle.cpu_alu.specs.Flags.{has_flag};
ghost use Rattle.cpu_alu.specs.declared.flags.TheConstants.{CARRY, DECIMAL};
ghost use Rattle.cpu_whole.specs.CodeWays.{is_modifying};
ghost use Rattle.cpu_alu.specs.Instructions.{bus_use, is_decimal, with_sum, stored_value, pushed_value, takes_branch, read_result, modified_value, modify_result, implied_result, pull_result};

use crate::plain::Plain;
use cpu_alu::{
    BusUse, CARRY, DECIMAL, NEGATIVE, OVERFLOW, Regs, Sum, ZERO, adc, has_flag, sbc, with_flag,
};
use op_table::{Mnemonic, Mode, Part};

/// Stores a sum with its flags.
#[inline(always)]
fn take_sum(r: &mut Regs, sum: Sum)
    ensures { r.new ≡ with_sum r.old sum }
{
    r.a = sum.value;
    let n_z = with_flag(with_flag(r.p, NEGATIVE, sum.n), ZERO, sum.z);
    r.p = with_flag(with_flag(n_z, CARRY, sum.c), OVERFLOW, sum.v);
}

/// Carries out ADC of the byte `m` in binary. Returns `false`, with nothing done, in decimal mode.
#[inline(always)]
fn add(part: Part, r: &mut Regs, m: u8) -> bool
    ensures binary { result ≡ not (has_flag r.old.p DECIMAL) }
    ensures sum { result ≡ true → r.new ≡ with_sum r.old (adc part false r.old.a m (has_flag r.old.p CARRY)) }
    ensures still { result ≡ false → r.new ≡ r.old }
{
    if has_flag(r.p, DECIMAL) {
        return false;
    }
    take_sum(r, adc(part, false, r.a, m, has_flag(r.p, CARRY)));
    true
}

/// Carries out SBC of the byte `m` in binary. Returns `false`, with nothing done, in decimal mode.
#[inline(always)]
fn subtract(part: Part, r: &mut Regs, m: u8) -> bool
    ensures binary { result ≡ not (has_flag r.old.p DECIMAL) }
    ensures sum { result ≡ true → r.new ≡ with_sum r.old (sbc part false r.old.a m (has_flag r.old.p CARRY)) }
    ensures still { result ≡ false → r.new ≡ r.old }
{
    if has_flag(r.p, DECIMAL) {
        return false;
    }
    take_sum(r, sbc(part, false, r.a, m, has_flag(r.p, CARRY)));
    true
}

/// Applies an instruction that reads the byte `m` to the registers, except PC. Returns `false`,
/// with nothing done, for a sum or a difference in decimal mode.
#[inline(always)]
pub(crate) fn read(part: Part, mnemonic: Mnemonic, mode: Mode, r: &mut Regs, m: u8) -> bool
    requires uses { bus_use mnemonic ≡ BusUse.Reads }
    ensures binary { result ≡ not (is_decimal mnemonic r.old) }
    ensures read { result ≡ true → r.new ≡ read_result part mnemonic mode r.old m }
    ensures still { result ≡ false → r.new ≡ r.old }
{
    if (mnemonic as u8) < Mnemonic::Lda as u8 {
        if (mnemonic as u8) < Mnemonic::Cmp as u8 {
            match mnemonic {
                Mnemonic::Adc => return add(part, r, m),
                Mnemonic::And => r.do_read(part, Mnemonic::And, mode, m),
                // Bit
                _ => r.do_read(part, Mnemonic::Bit, mode, m),
            }
        } else if (mnemonic as u8) < Mnemonic::Eor as u8 {
            match mnemonic {
                Mnemonic::Cmp => r.do_read(part, Mnemonic::Cmp, mode, m),
                Mnemonic::Cpx => r.do_read(part, Mnemonic::Cpx, mode, m),
                // Cpy
                _ => r.do_read(part, Mnemonic::Cpy, mode, m),
            }
        } else {
            r.do_read(part, Mnemonic::Eor, mode, m);
        }
    } else if (mnemonic as u8) < Mnemonic::Lsr as u8 {
        match mnemonic {
            Mnemonic::Lda => r.do_read(part, Mnemonic::Lda, mode, m),
            Mnemonic::Ldx => r.do_read(part, Mnemonic::Ldx, mode, m),
            // Ldy
            _ => r.do_read(part, Mnemonic::Ldy, mode, m),
        }
    } else {
        match mnemonic {
            Mnemonic::Ora => r.do_read(part, Mnemonic::Ora, mode, m),
            // Sbc
            _ => return subtract(part, r, m),
        }
    }
    true
}

/// Returns the byte that a store writes.
#[inline(always)]
pub(crate) fn stored(mnemonic: Mnemonic, r: &Regs) -> u8
    requires { bus_use mnemonic ≡ BusUse.Stores }
    ensures { result ≡ stored_value mnemonic r.now }
{
    if (mnemonic as u8) < Mnemonic::Stx as u8 {
        r.stored(Mnemonic::Sta)
    } else {
        match mnemonic {
            Mnemonic::Stx => r.stored(Mnemonic::Stx),
            Mnemonic::Sty => r.stored(Mnemonic::Sty),
            // Stz
            _ => 0,
        }
    }
}

/// Returns the byte that a push writes.
#[inline(always)]
pub(crate) fn pushed(mnemonic: Mnemonic, r: &Regs) -> u8
    requires { bus_use mnemonic ≡ BusUse.Pushes }
    ensures { result ≡ pushed_value mnemonic r.now }
{
    if (mnemonic as u8) < Mnemonic::Php as u8 {
        r.pushed(Mnemonic::Pha)
    } else {
        match mnemonic {
            Mnemonic::Phx => r.pushed(Mnemonic::Phx),
            Mnemonic::Phy => r.pushed(Mnemonic::Phy),
            // Php
            _ => r.pushed(Mnemonic::Php),
        }
    }
}

/// Returns true if a branch is taken.
#[inline(always)]
pub(crate) fn takes(branch: Mnemonic, r: &Regs) -> bool
    requires { bus_use branch ≡ BusUse.Branches }
    ensures { result ≡ takes_branch branch r.now }
{
    if (branch as u8) < Mnemonic::Bmi as u8 {
        match branch {
            Mnemonic::Bcc => r.takes(Mnemonic::Bcc),
            Mnemonic::Bcs => r.takes(Mnemonic::Bcs),
            // Beq
            _ => r.takes(Mnemonic::Beq),
        }
    } else if (branch as u8) < Mnemonic::Bra as u8 {
        match branch {
            Mnemonic::Bmi => r.takes(Mnemonic::Bmi),
            Mnemonic::Bne => r.takes(Mnemonic::Bne),
            // Bpl
            _ => r.takes(Mnemonic::Bpl),
        }
    } else {
        match branch {
            Mnemonic::Bvc => r.takes(Mnemonic::Bvc),
            Mnemonic::Bvs => r.takes(Mnemonic::Bvs),
            // Bra
            _ => true,
        }
    }
}

/// Applies a modify instruction to the registers, except PC, and returns the byte that replaces `m`
/// in memory.
#[inline(always)]
fn change_by(mnemonic: Mnemonic, mode: Mode, r: &mut Regs, m: u8) -> u8
    ensures value { result ≡ modified_value mnemonic r.old m }
    ensures regs { r.new ≡ modify_result mnemonic mode r.old m }
{
    let value = r.modified(mnemonic, m);
    r.do_modify(mnemonic, mode, m);
    value
}

/// Applies a modify instruction to the registers, except PC, and returns the byte that replaces `m`
/// in memory. The type parameters name the calling place, which gets a copy of its own: a copy
/// shared by several callers stays a call that needs the registers in memory.
#[inline(always)]
pub(crate) fn change<W, N, M: Plain<N>, L>(
    mnemonic: Mnemonic,
    mode: Mode,
    r: &mut Regs,
    m: u8,
) -> u8
    requires { is_modifying (bus_use mnemonic) ≡ true }
    ensures value { result ≡ modified_value mnemonic r.old m }
    ensures regs { r.new ≡ modify_result mnemonic mode r.old m }
{
    if (mnemonic as u8) < Mnemonic::Lsr as u8 {
        match mnemonic {
            Mnemonic::Inc => change_by(Mnemonic::Inc, mode, r, m),
            Mnemonic::Dec => change_by(Mnemonic::Dec, mode, r, m),
            // Asl
            _ => change_by(Mnemonic::Asl, mode, r, m),
        }
    } else if (mnemonic as u8) < Mnemonic::Ror as u8 {
        match mnemonic {
            Mnemonic::Lsr => change_by(Mnemonic::Lsr, mode, r, m),
            // Rol
            _ => change_by(Mnemonic::Rol, mode, r, m),
        }
    } else {
        match mnemonic {
            Mnemonic::Ror => change_by(Mnemonic::Ror, mode, r, m),
            Mnemonic::Trb => change_by(Mnemonic::Trb, mode, r, m),
            // Tsb
            _ => change_by(Mnemonic::Tsb, mode, r, m),
        }
    }
}

/// Applies an instruction without an operand to the registers, except PC.
#[inline(always)]
pub(crate) fn implied(mnemonic: Mnemonic, r: &mut Regs)
    requires { bus_use mnemonic ≡ BusUse.Implied }
    ensures { r.new ≡ implied_result mnemonic r.old }
{
    if (mnemonic as u8) < Mnemonic::Inx as u8 {
        if (mnemonic as u8) < Mnemonic::Clv as u8 {
            match mnemonic {
                Mnemonic::Clc => r.do_implied(Mnemonic::Clc),
                Mnemonic::Cld => r.do_implied(Mnemonic::Cld),
                // Cli
                _ => r.do_implied(Mnemonic::Cli),
            }
        } else {
            match mnemonic {
                Mnemonic::Clv => r.do_implied(Mnemonic::Clv),
                Mnemonic::Dex => r.do_implied(Mnemonic::Dex),
                // Dey
                _ => r.do_implied(Mnemonic::Dey),
            }
        }
    } else if (mnemonic as u8) < Mnemonic::Tax as u8 {
        if (mnemonic as u8) < Mnemonic::Sec as u8 {
            match mnemonic {
                Mnemonic::Inx => r.do_implied(Mnemonic::Inx),
                Mnemonic::Iny => r.do_implied(Mnemonic::Iny),
                // Nop
                _ => {}
            }
        } else {
            match mnemonic {
                Mnemonic::Sec => r.do_implied(Mnemonic::Sec),
                Mnemonic::Sed => r.do_implied(Mnemonic::Sed),
                // Sei
                _ => r.do_implied(Mnemonic::Sei),
            }
        }
    } else if (mnemonic as u8) < Mnemonic::Txa as u8 {
        match mnemonic {
            Mnemonic::Tax => r.do_implied(Mnemonic::Tax),
            Mnemonic::Tay => r.do_implied(Mnemonic::Tay),
            // Tsx
            _ => r.do_implied(Mnemonic::Tsx),
        }
    } else {
        match mnemonic {
            Mnemonic::Txa => r.do_implied(Mnemonic::Txa),
            Mnemonic::Txs => r.do_implied(Mnemonic::Txs),
            // Tya
            _ => r.do_implied(Mnemonic::Tya),
        }
    }
}

/// Applies a pull of the byte `m` to the registers, except PC and S.
#[inline(always)]
pub(crate) fn pull(mnemonic: Mnemonic, r: &mut Regs, m: u8)
    requires { bus_use mnemonic ≡ BusUse.Pulls }
    ensures { r.new ≡ pull_result mnemonic r.old m }
{
    if (mnemonic as u8) < Mnemonic::Plx as u8 {
        match mnemonic {
            Mnemonic::Pla => r.do_pull(Mnemonic::Pla, m),
            // Plp
            _ => r.do_pull(Mnemonic::Plp, m),
        }
    } else {
        match mnemonic {
            Mnemonic::Plx => r.do_pull(Mnemonic::Plx, m),
            // Ply
            _ => r.do_pull(Mnemonic::Ply, m),
        }
    }
}
