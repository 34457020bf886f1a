//! The flags in P.
ghost use Rattle.std.specs.Prelude.{◌≡◌};
ghost use Rattle.cpu_alu.specs.Flags.{has_flag, with_flag, with_n_z, with_n_z_c, with_n_v_z_c};

use crate::Sum;
use crate::arithmetic::bit_7;

/// C in P.
pub const CARRY: u8 = 0x01;
/// Z in P.
pub const ZERO: u8 = 0x02;
/// I in P, which disables IRQ.
pub const INTERRUPT: u8 = 0x04;
/// D in P, which makes ADC and SBC decimal.
pub const DECIMAL: u8 = 0x08;
/// V in P.
pub const OVERFLOW: u8 = 0x40;
/// N in P.
pub const NEGATIVE: u8 = 0x80;
/// The bit set beside the flags in a byte that an interrupt pushes: bit 5.
pub const PUSHED_BY_INTERRUPT: u8 = 0x20;
/// The bits set beside the flags in a byte that PHP or BRK pushes: bits 4 and 5.
pub const PUSHED_BY_PROGRAM: u8 = 0x30;
/// The bits kept of a byte that is pulled as flags: all but bits 4 and 5.
pub const PULLED: u8 = 0xCF;

/// Returns true if the flag of value `weight` is set.
#[inline(always)]
pub fn has_flag(p: u8, weight: u8) -> bool
    ensures { result ≡ has_flag p weight }
{
    p & weight != 0
}

/// Returns `p` with the flag of value `weight` set or cleared.
#[inline(always)]
pub fn with_flag(p: u8, weight: u8, set: bool) -> u8
    ensures { result ≡ with_flag p weight set }
{
    if set { p | weight } else { p & !weight }
}

/// Returns `p` with N and Z from a byte.
#[inline(always)]
pub(crate) fn with_n_z(p: u8, value: u8) -> u8
    ensures { result ≡ with_n_z p value }
{
    with_flag(
        with_flag(p, NEGATIVE, bit_7(value as u16)),
        ZERO,
        value == 0,
    )
}

/// Returns `p` with N, Z and C from an operation.
#[inline(always)]
pub(crate) fn with_n_z_c(p: u8, sum: Sum) -> u8
    ensures { result ≡ with_n_z_c p sum }
{
    with_flag(
        with_flag(with_flag(p, NEGATIVE, sum.n), ZERO, sum.z),
        CARRY,
        sum.c,
    )
}

/// Returns `p` with N, V, Z and C from an operation.
#[inline(always)]
pub(crate) fn with_n_v_z_c(p: u8, sum: Sum) -> u8
    ensures { result ≡ with_n_v_z_c p sum }
{
    with_flag(with_n_z_c(p, sum), OVERFLOW, sum.v)
}
