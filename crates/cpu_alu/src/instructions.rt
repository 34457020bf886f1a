//! The registers after each instruction, and the byte that it writes.
ghost use Rattle.std.specs.Prelude.{◌≡◌};
ghost use Rattle.cpu_alu.specs.Instructions.{stored_value, pushed_value, takes_branch, is_decimal, with_a, with_x, with_y, with_sum};
ghost use Rattle.cpu_alu.specs.Instructions.{after_compare, with_masked_z, bit_flags, read_result, modified_value, modify_flags, modify_result, implied_result, pull_result};

use crate::arithmetic::{adc, asl, bit_7, compare, lsr, rol, ror, sbc};
use crate::flags::{
    CARRY, DECIMAL, INTERRUPT, NEGATIVE, OVERFLOW, PULLED, PUSHED_BY_PROGRAM, ZERO, has_flag,
    with_flag, with_n_v_z_c, with_n_z, with_n_z_c,
};
use crate::{Regs, Sum};
use op_table::{Mnemonic, Mode, Part};

#[inline(always)]
fn with_masked_z(p: u8, a: u8, m: u8) -> u8
    ensures { result ≡ with_masked_z p a m }
{
    with_flag(p, ZERO, a & m == 0)
}

fn bit_flags(mode: Mode, p: u8, a: u8, m: u8) -> u8
    ensures { result ≡ bit_flags mode p a m }
{
    let p = with_masked_z(p, a, m);
    match mode {
        Mode::Imm => p,
        _ => with_flag(
            with_flag(p, NEGATIVE, bit_7(m as u16)),
            OVERFLOW,
            has_flag(m, 0x40),
        ),
    }
}

impl Regs {
    /// Returns the byte that a store writes.
    #[inline(always)]
    pub fn stored(&self, mnemonic: Mnemonic) -> u8
        ensures { result ≡ stored_value mnemonic self.now }
    {
        match mnemonic {
            Mnemonic::Sta => self.a,
            Mnemonic::Stx => self.x,
            Mnemonic::Sty => self.y,
            _ => 0,
        }
    }

    /// Returns the byte that a push writes: flags have bits 4 and 5 set.
    #[inline(always)]
    pub fn pushed(&self, mnemonic: Mnemonic) -> u8
        ensures { result ≡ pushed_value mnemonic self.now }
    {
        match mnemonic {
            Mnemonic::Pha => self.a,
            Mnemonic::Phx => self.x,
            Mnemonic::Phy => self.y,
            _ => self.p | PUSHED_BY_PROGRAM,
        }
    }

    /// Returns true if a branch is taken.
    #[inline(always)]
    pub fn takes(&self, branch: Mnemonic) -> bool
        ensures { result ≡ takes_branch branch self.now }
    {
        match branch {
            Mnemonic::Bpl => !has_flag(self.p, NEGATIVE),
            Mnemonic::Bmi => has_flag(self.p, NEGATIVE),
            Mnemonic::Bvc => !has_flag(self.p, OVERFLOW),
            Mnemonic::Bvs => has_flag(self.p, OVERFLOW),
            Mnemonic::Bcc => !has_flag(self.p, CARRY),
            Mnemonic::Bcs => has_flag(self.p, CARRY),
            Mnemonic::Bne => !has_flag(self.p, ZERO),
            Mnemonic::Beq => has_flag(self.p, ZERO),
            _ => true,
        }
    }

    /// Returns true for a sum or a difference in decimal mode.
    #[inline(always)]
    pub fn is_decimal(&self, mnemonic: Mnemonic) -> bool
        ensures { result ≡ is_decimal mnemonic self.now }
    {
        match mnemonic {
            Mnemonic::Adc | Mnemonic::Sbc => has_flag(self.p, DECIMAL),
            _ => false,
        }
    }

    #[inline(always)]
    fn load_a(&mut self, value: u8)
        ensures { self.new ≡ with_a self.old value }
    {
        self.a = value;
        self.p = with_n_z(self.p, value);
    }

    #[inline(always)]
    fn load_x(&mut self, value: u8)
        ensures { self.new ≡ with_x self.old value }
    {
        self.x = value;
        self.p = with_n_z(self.p, value);
    }

    #[inline(always)]
    fn load_y(&mut self, value: u8)
        ensures { self.new ≡ with_y self.old value }
    {
        self.y = value;
        self.p = with_n_z(self.p, value);
    }

    #[inline(always)]
    fn take_sum(&mut self, sum: Sum)
        ensures { self.new ≡ with_sum self.old sum }
    {
        self.a = sum.value;
        self.p = with_n_v_z_c(self.p, sum);
    }

    #[inline(always)]
    fn take_compared(&mut self, value: u8, m: u8)
        ensures { self.new ≡ after_compare self.old value m }
    {
        self.p = with_n_z_c(self.p, compare(value, m));
    }

    /// Applies an instruction that reads the byte `m` to the registers, except PC.
    #[inline]
    pub fn do_read(&mut self, part: Part, mnemonic: Mnemonic, mode: Mode, m: u8)
        ensures { self.new ≡ read_result part mnemonic mode self.old m }
    {
        match mnemonic {
            Mnemonic::Lda => self.load_a(m),
            Mnemonic::Ldx => self.load_x(m),
            Mnemonic::Ldy => self.load_y(m),
            Mnemonic::And => self.load_a(self.a & m),
            Mnemonic::Ora => self.load_a(self.a | m),
            Mnemonic::Eor => self.load_a(self.a ^ m),
            Mnemonic::Adc => self.take_sum(adc(
                part,
                has_flag(self.p, DECIMAL),
                self.a,
                m,
                has_flag(self.p, CARRY),
            )),
            Mnemonic::Sbc => self.take_sum(sbc(
                part,
                has_flag(self.p, DECIMAL),
                self.a,
                m,
                has_flag(self.p, CARRY),
            )),
            Mnemonic::Cmp => self.take_compared(self.a, m),
            Mnemonic::Cpx => self.take_compared(self.x, m),
            Mnemonic::Cpy => self.take_compared(self.y, m),
            Mnemonic::Bit => self.p = bit_flags(mode, self.p, self.a, m),
            _ => {}
        }
    }

    /// Returns the byte that a modify instruction writes for `m`.
    #[inline(always)]
    pub fn modified(&self, mnemonic: Mnemonic, m: u8) -> u8
        ensures { result ≡ modified_value mnemonic self.now m }
    {
        let c = has_flag(self.p, CARRY);
        match mnemonic {
            Mnemonic::Asl => asl(m, c).value,
            Mnemonic::Lsr => lsr(m, c).value,
            Mnemonic::Rol => rol(m, c).value,
            Mnemonic::Ror => ror(m, c).value,
            Mnemonic::Inc => m.wrapping_add(1),
            Mnemonic::Dec => m.wrapping_add(255),
            Mnemonic::Tsb => m | self.a,
            Mnemonic::Trb => m & !self.a,
            _ => m,
        }
    }

    #[inline(always)]
    fn modify_flags(&self, mnemonic: Mnemonic, m: u8) -> u8
        ensures { result ≡ modify_flags mnemonic self.now m }
    {
        let c = has_flag(self.p, CARRY);
        match mnemonic {
            Mnemonic::Asl => with_n_z_c(self.p, asl(m, c)),
            Mnemonic::Lsr => with_n_z_c(self.p, lsr(m, c)),
            Mnemonic::Rol => with_n_z_c(self.p, rol(m, c)),
            Mnemonic::Ror => with_n_z_c(self.p, ror(m, c)),
            Mnemonic::Inc => with_n_z(self.p, m.wrapping_add(1)),
            Mnemonic::Dec => with_n_z(self.p, m.wrapping_add(255)),
            _ => with_masked_z(self.p, self.a, m),
        }
    }

    /// Applies a modify instruction to the registers, except PC: on A in accumulator mode, else on
    /// the byte `m` of memory.
    #[inline(always)]
    pub fn do_modify(&mut self, mnemonic: Mnemonic, mode: Mode, m: u8)
        ensures { self.new ≡ modify_result mnemonic mode self.old m }
    {
        match mode {
            Mode::Acc => {
                let a = self.modified(mnemonic, self.a);
                self.p = self.modify_flags(mnemonic, self.a);
                self.a = a;
            }
            _ => self.p = self.modify_flags(mnemonic, m),
        }
    }

    /// Applies an instruction without an operand to the registers, except PC.
    #[inline]
    pub fn do_implied(&mut self, mnemonic: Mnemonic)
        ensures { self.new ≡ implied_result mnemonic self.old }
    {
        match mnemonic {
            Mnemonic::Clc => self.p = with_flag(self.p, CARRY, false),
            Mnemonic::Cld => self.p = with_flag(self.p, DECIMAL, false),
            Mnemonic::Cli => self.p = with_flag(self.p, INTERRUPT, false),
            Mnemonic::Clv => self.p = with_flag(self.p, OVERFLOW, false),
            Mnemonic::Sec => self.p = with_flag(self.p, CARRY, true),
            Mnemonic::Sed => self.p = with_flag(self.p, DECIMAL, true),
            Mnemonic::Sei => self.p = with_flag(self.p, INTERRUPT, true),
            Mnemonic::Dex => self.load_x(self.x.wrapping_add(255)),
            Mnemonic::Dey => self.load_y(self.y.wrapping_add(255)),
            Mnemonic::Inx => self.load_x(self.x.wrapping_add(1)),
            Mnemonic::Iny => self.load_y(self.y.wrapping_add(1)),
            Mnemonic::Tax => self.load_x(self.a),
            Mnemonic::Tay => self.load_y(self.a),
            Mnemonic::Tsx => self.load_x(self.s),
            Mnemonic::Txa => self.load_a(self.x),
            Mnemonic::Tya => self.load_a(self.y),
            Mnemonic::Txs => self.s = self.x,
            _ => {}
        }
    }

    /// Applies a pull of the byte `m` to the registers, except PC and S: PLP ignores bits 4 and 5.
    pub fn do_pull(&mut self, mnemonic: Mnemonic, m: u8)
        ensures { self.new ≡ pull_result mnemonic self.old m }
    {
        match mnemonic {
            Mnemonic::Pla => self.load_a(m),
            Mnemonic::Plx => self.load_x(m),
            Mnemonic::Ply => self.load_y(m),
            _ => self.p = m & PULLED,
        }
    }
}
