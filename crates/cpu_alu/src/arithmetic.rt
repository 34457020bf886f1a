//! Sums, differences, comparisons and shifts.
ghost use Rattle.std.specs.Prelude.{◌≡◌, ◌<◌, pos, negsuc, ◌≤ℤ◌, ◌<ℤ◌};
ghost use Rattle.cpu_alu.specs.Arithmetic.{bit_7, carry, low_byte, low_bits, low_sum, difference, low_difference, nmos_low_digit, nmos_difference, cmos_difference, of_value};
ghost use Rattle.cpu_alu.specs.Arithmetic.{adc_binary, adc_decimal, sbc_decimal, adc, sbc, compare, shift_left, shift_right, asl, lsr, rol, ror};

use crate::Sum;
use op_table::Part;

#[inline(always)]
pub(crate) fn bit_7(x: u16) -> bool
    ensures { result ≡ bit_7 x }
{
    x / 128 % 2 == 1
}

#[inline(always)]
fn carry(c: bool) -> u16
    ensures { result ≡ carry c }
{
    if c { 1 } else { 0 }
}

/// Returns a byte with its own N and Z, the carry `c`, and V clear.
#[inline(always)]
fn of_value(value: u8, c: bool) -> Sum
    ensures { result ≡ of_value value c }
{
    Sum {
        value,
        c,
        z: value == 0,
        v: false,
        n: bit_7(value as u16),
    }
}

#[inline]
fn adc_binary(a: u8, m: u8, c: bool) -> Sum
    ensures { result ≡ adc_binary a m c }
{
    let r = a as u16 + m as u16 + carry(c);
    let value = (r % 256) as u8;
    Sum {
        value,
        c: r > 0xFF,
        z: value == 0,
        v: bit_7((a as u16 ^ r) & (m as u16 ^ r)),
        n: bit_7(r),
    }
}

fn low_sum(a: u8, m: u8, c: bool) -> u16
    ensures value { result ≡ low_sum a m c }
    ensures small { result < 32 }
{
    let l = a as u16 % 16 + m as u16 % 16 + carry(c);
    if l >= 0x0A { (l + 0x06) % 16 + 0x10 } else { l }
}

fn adc_decimal(part: Part, a: u8, m: u8, c: bool) -> Sum
    ensures { result ≡ adc_decimal part a m c }
{
    let digits = (a & 0xF0) as u16 + (m & 0xF0) as u16 + low_sum(a, m, c);
    let s = if digits >= 0xA0 {
        digits + 0x60
    } else {
        digits
    };
    let value = (s % 256) as u8;
    let v = bit_7(!(a ^ m) as u16 & (a as u16 ^ digits));
    match part {
        Part::Nmos => Sum {
            value,
            c: s >= 0x100,
            z: (a as u16 + m as u16 + carry(c)) % 256 == 0,
            v,
            n: bit_7(digits),
        },
        Part::Cmos => Sum {
            value,
            c: s >= 0x100,
            z: value == 0,
            v,
            n: bit_7(value as u16),
        },
    }
}

fn low_byte(x: i16) -> u8
    requires low { negsuc 511 ≤ℤ x }
    requires high { x <ℤ pos 512 }
    ensures { result ≡ low_byte x }
{
    ((x + 512) as u16 % 256) as u8
}

fn low_bits(x: i16) -> u8
    requires low { negsuc 63 ≤ℤ x }
    requires high { x <ℤ pos 64 }
    ensures value { result ≡ low_bits x }
    ensures small { result < 16 }
{
    ((x + 64) as u16 % 16) as u8
}

fn difference(a: u8, m: u8, c: bool) -> i16
    ensures value { result ≡ difference a m c }
    ensures low { negsuc 255 ≤ℤ result }
    ensures high { result <ℤ pos 256 }
{
    a as i16 - m as i16 + carry(c) as i16 - 1
}

fn cmos_difference(a: u8, m: u8, c: bool) -> i16
    ensures value { result ≡ cmos_difference a m c }
    ensures low { negsuc 511 ≤ℤ result }
    ensures high { result <ℤ pos 512 }
{
    let s = difference(a, m, c);
    let t = if s < 0 { s - 0x60 } else { s };
    if difference(a % 16, m % 16, c) < 0 {
        t - 0x06
    } else {
        t
    }
}

fn nmos_low_digit(a: u8, m: u8, c: bool) -> i16
    ensures value { result ≡ nmos_low_digit a m c }
    ensures low { negsuc 15 ≤ℤ result }
    ensures high { result <ℤ pos 16 }
{
    let l = difference(a % 16, m % 16, c);
    if l < 0 {
        low_bits(l - 0x06) as i16 - 0x10
    } else {
        l
    }
}

fn nmos_difference(a: u8, m: u8, c: bool) -> i16
    ensures value { result ≡ nmos_difference a m c }
    ensures low { negsuc 511 ≤ℤ result }
    ensures high { result <ℤ pos 512 }
{
    let s = (a & 0xF0) as i16 - (m & 0xF0) as i16 + nmos_low_digit(a, m, c);
    if s < 0 { s - 0x60 } else { s }
}

fn sbc_decimal(part: Part, a: u8, m: u8, c: bool) -> Sum
    ensures { result ≡ sbc_decimal part a m c }
{
    let binary = adc_binary(a, !m, c);
    match part {
        Part::Nmos => Sum {
            value: low_byte(nmos_difference(a, m, c)),
            ..binary
        },
        Part::Cmos => Sum {
            v: binary.v,
            ..of_value(low_byte(cmos_difference(a, m, c)), binary.c)
        },
    }
}

/// ADC: returns A plus `m` plus the carry, in decimal mode if `decimal` is true.
/// Source: the MCS6500 Programming Manual, chapter 2, and the 65C02's data sheet. The results of
/// decimal mode for digits above 9, and its V, are this project's choice.
#[inline]
pub fn adc(part: Part, decimal: bool, a: u8, m: u8, c: bool) -> Sum
    ensures { result ≡ adc part decimal a m c }
{
    if decimal {
        adc_decimal(part, a, m, c)
    } else {
        adc_binary(a, m, c)
    }
}

/// SBC: returns A less `m`, and less one more if the carry is clear; in decimal mode if `decimal`
/// is true.
/// Source: the same as for `adc`.
#[inline]
pub fn sbc(part: Part, decimal: bool, a: u8, m: u8, c: bool) -> Sum
    ensures { result ≡ sbc part decimal a m c }
{
    if decimal {
        sbc_decimal(part, a, m, c)
    } else {
        adc_binary(a, !m, c)
    }
}

/// CMP, CPX and CPY: returns the register `r` less `m`. V is clear.
/// Source: the MCS6500 Programming Manual, chapters 4 and 7.
#[inline]
pub fn compare(r: u8, m: u8) -> Sum
    ensures { result ≡ compare r m }
{
    of_value(((r as u16 + (256 - m as u16)) % 256) as u8, r >= m)
}

#[inline]
fn shift_left(m: u8, low: bool) -> Sum
    ensures { result ≡ shift_left m low }
{
    of_value(((m as u16 * 2) % 256 + carry(low)) as u8, bit_7(m as u16))
}

#[inline]
fn shift_right(m: u8, high: bool) -> Sum
    ensures { result ≡ shift_right m high }
{
    of_value((m as u16 / 2 + carry(high) * 128) as u8, m % 2 == 1)
}

/// ASL: shifts left by one bit, with 0 shifted in. V is clear. The carry is ignored.
/// Source: the MCS6500 Programming Manual, chapter 10.
#[inline]
pub fn asl(m: u8, _c: bool) -> Sum
    ensures { result ≡ asl m }
{
    shift_left(m, false)
}

/// LSR: shifts right by one bit, with 0 shifted in. V is clear. The carry is ignored.
/// Source: the MCS6500 Programming Manual, chapter 10.
#[inline]
pub fn lsr(m: u8, _c: bool) -> Sum
    ensures { result ≡ lsr m }
{
    shift_right(m, false)
}

/// ROL: shifts left by one bit, with the carry shifted in. V is clear.
/// Source: the MCS6500 Programming Manual, chapter 10.
#[inline]
pub fn rol(m: u8, c: bool) -> Sum
    ensures { result ≡ rol m c }
{
    shift_left(m, c)
}

/// ROR: shifts right by one bit, with the carry shifted in. V is clear.
/// Source: the MCS6500 Programming Manual, chapter 10.
#[inline]
pub fn ror(m: u8, c: bool) -> Sum
    ensures { result ≡ ror m c }
{
    shift_right(m, c)
}
