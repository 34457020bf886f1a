//! Sums, shifts, addresses and flags, compared with a calculation digit by digit and with the
//! manual.
use super::words::byte;
use cpu_alu::{
    BusUse, Regs, Sum, adc, asl, bus_use, compare, crosses_page, has_flag, in_zero_page, lsr, rol,
    ror, sbc, with_flag, word, wrapping_sum,
};
use digits::two_digits;
use op_table::{Mnemonic, Mode, Part};

/// Returns a sum in decimal mode, digit by digit: the byte, C, V and N1, which is N on the NMOS
/// part.
fn sum_by_digits(a: u8, m: u8, c: bool) -> (u8, bool, bool, bool) {
    let low = a % 16 + m % 16 + c as u8;
    let (low, half) = if low > 9 {
        ((low + 6) % 16, 1)
    } else {
        (low, 0)
    };
    let high = a / 16 + m / 16 + half;
    let n = high & 8 != 0;
    let v = a & 0x80 == m & 0x80 && (a & 0x80 != 0) != n;
    let (high, c) = if high > 9 {
        ((high + 6) % 16, true)
    } else {
        (high, false)
    };
    (high * 16 + low, c, v, n)
}

/// Returns one digit of a difference in decimal mode, and its borrow.
fn digit_less(a: u8, m: u8, borrow: u8) -> (u8, u8) {
    let less = a.wrapping_sub(m).wrapping_sub(borrow);
    if less < 16 {
        (less, 0)
    } else {
        (less.wrapping_add(10) % 16, 1)
    }
}

/// Returns the byte of a difference in decimal mode. The NMOS part corrects its digits one by one,
/// the 65C02 the whole byte.
fn difference_by_digits(part: Part, a: u8, m: u8, c: bool) -> u8 {
    let borrow = !c as u8;
    let (low, half) = digit_less(a % 16, m % 16, borrow);
    match part {
        Part::Nmos => {
            let (high, _) = digit_less(a / 16, m / 16, half);
            high.wrapping_mul(16).wrapping_add(low)
        }
        Part::Cmos => {
            let whole = a.wrapping_sub(m).wrapping_sub(borrow);
            let is_below = (a as u16) < m as u16 + borrow as u16;
            let tens = if is_below { 0x60 } else { 0 };
            whole.wrapping_sub(tens).wrapping_sub(half.wrapping_mul(6))
        }
    }
}

/// Returns true if the sum and the difference in decimal mode are those of the calculation digit by
/// digit.
fn goes_by_digits(part: Part, a: u8, m: u8, carry: bool) -> bool {
    let binary = a as u16 + m as u16 + carry as u16;
    let (value, c, v, n1) = sum_by_digits(a, m, carry);
    let (z, n) = match part {
        Part::Nmos => (binary % 256 == 0, n1),
        Part::Cmos => (value == 0, value >= 0x80),
    };
    let is_sum = adc(part, true, a, m, carry) == Sum { value, c, z, v, n };
    let binary = sbc(part, false, a, m, carry);
    let value = difference_by_digits(part, a, m, carry);
    let (z, n) = match part {
        Part::Nmos => (binary.z, binary.n),
        Part::Cmos => (value == 0, value >= 0x80),
    };
    let difference = Sum {
        value,
        z,
        n,
        ..binary
    };
    is_sum & (sbc(part, true, a, m, carry) == difference)
}

#[test]
fn decimal_mode_goes_digit_by_digit(rt: HostRuntime) {
    // Each A and m of both parts, without a carry and with one.
    for n in 0..0x4_0000u32 {
        let [_, case, a, m] = n.to_be_bytes();
        let part = if case < 2 { Part::Nmos } else { Part::Cmos };
        assert!(rt; goes_by_digits(part, a, m, case % 2 == 1), "{n:X}");
    }
}

// A line is an operation, A or the register, m, and the set ones of the carry and D; then, for the
// NMOS part and for the 65C02, the value and the set ones of C, Z, V and N.
const SUMS: &str = "\
# The signed sums of the MCS6500 Programming Manual, section 2.2: 5 + 7, 127 + 2, 5 - 3, 5 - 7, -5 - 7, -66 - 65.
adc 05 07 -- 0C ---- 0C ----
adc 7F 02 -- 81 --VN 81 --VN
adc 05 FD -- 02 C--- 02 C---
adc 05 F9 -- FE ---N FE ---N
adc FB F9 -- F4 C--N F4 C--N
adc BE BF -- 7D C-V- 7D C-V-
adc FF 00 C- 00 CZ-- 00 CZ--
adc 80 80 -- 00 CZV- 00 CZV-
# The same with all bits of m inverted: A + m is A less NOT m.
sbc 05 F8 -- 0C ---- 0C ----
sbc 7F FD -- 81 --VN 81 --VN
sbc 05 02 -- 02 C--- 02 C---
sbc 05 06 -- FE ---N FE ---N
sbc FB 06 -- F4 C--N F4 C--N
sbc BE 40 -- 7D C-V- 7D C-V-
sbc FF FF C- 00 CZ-- 00 CZ--
sbc 80 7F -- 00 CZV- 00 CZV-
# Odd digits, and flags by the part.
adc 99 01 -D 00 C--N 00 CZ--
adc 80 80 -D 60 CZV- 60 C-V-
adc 0F 01 -D 16 ---- 16 ----
adc 0A 00 -D 10 ---- 10 ----
adc FF FF CD 55 C--N 55 C---
sbc 00 01 CD 99 ---N 99 ---N
sbc 00 60 CD 40 ---N 40 ----
sbc 0F 00 CD 0F C--- 0F C---
sbc 00 0F CD 9B ---N 8B ---N
# Shifts and comparisons.
asl 00 81 C- 02 C--- 02 C---
asl 00 40 C- 80 ---N 80 ---N
lsr 00 81 C- 40 C--- 40 C---
lsr 00 01 C- 00 CZ-- 00 CZ--
rol 00 81 C- 03 C--- 03 C---
rol 00 80 -- 00 CZ-- 00 CZ--
ror 00 81 C- C0 C--N C0 C--N
ror 00 80 -- 40 ---- 40 ----
cmp 50 30 -- 20 C--- 20 C---
cmp 30 30 -- 00 CZ-- 00 CZ--
cmp 30 50 -- E0 ---N E0 ---N
cmp 80 01 -- 7F C--- 7F C---
";

// Does an operation on a part.
fn sum_of(part: Part, operation: [u8; 3], a: u8, m: u8, [carry, decimal]: [bool; 2]) -> Sum {
    match &operation {
        b"adc" => adc(part, decimal, a, m, carry),
        b"sbc" => sbc(part, decimal, a, m, carry),
        b"asl" => asl(m, carry),
        b"lsr" => lsr(m, carry),
        b"rol" => rol(m, carry),
        b"ror" => ror(m, carry),
        _ => compare(a, m),
    }
}

// Returns a flag as a line has it.
fn flag(letter: u8, set: bool) -> u8 {
    if set { letter } else { b'-' }
}

// Returns the value and the flags of a sum as a line has them.
fn told(sum: Sum) -> [u8; 7] {
    let [high, low] = two_digits(sum.value);
    [
        high,
        low,
        b' ',
        flag(b'C', sum.c),
        flag(b'Z', sum.z),
        flag(b'V', sum.v),
        flag(b'N', sum.n),
    ]
}

// Returns true if an operation has its line's result, on each part.
fn is_right(line: &[u8]) -> bool {
    let [o, p, q, b' ', a, b, b' ', m, n, b' ', c, d, b' ', want @ ..] = line else {
        return false;
    };
    let are_set = [*c == b'C', *d == b'D'];
    let nmos = sum_of(
        Part::Nmos,
        [*o, *p, *q],
        byte(*a, *b),
        byte(*m, *n),
        are_set,
    );
    let cmos = sum_of(
        Part::Cmos,
        [*o, *p, *q],
        byte(*a, *b),
        byte(*m, *n),
        are_set,
    );
    (want.get(..7) == Some(told(nmos).as_slice())) & (want.get(8..) == Some(told(cmos).as_slice()))
}

#[test]
fn sums_shifts_and_comparisons_have_their_flags(rt: HostRuntime) {
    for line in SUMS.lines() {
        if !line.starts_with('#') {
            assert!(rt; is_right(line.as_bytes()), "{line}");
        }
    }
}

#[test]
fn addresses_wrap(rt: HostRuntime) {
    let regs = Regs {
        pc: 0xFFFE,
        a: 0,
        x: 0,
        y: 0,
        s: 0xFF,
        p: 0,
    };
    let words = [
        word(0x34, 0x12),
        wrapping_sum(0xFFFF, 2),
        in_zero_page(0xFF, 2),
    ];
    assert!(rt; words == [0x1234, 0x0001, 0x0001]);
    assert!(rt; [crosses_page(0xFF, 1), crosses_page(0xFE, 1)] == [true, false]);
    // The target is two bytes after FFFE, and then 16 before.
    let places = [
        regs.place(2),
        regs.stack(0),
        regs.stack(1),
        regs.target(0xF0),
    ];
    assert!(rt; places == [0x0000, 0x01FF, 0x0100, 0xFFF0]);
    let mut moved = regs;
    moved.move_stack(2);
    moved.move_past(3);
    assert!(rt; [u16::from(moved.s), moved.pc] == [0x0001, 0x0001]);
}

#[test]
fn instructions_change_registers_and_flags(rt: HostRuntime) {
    let mut regs = Regs {
        pc: 0,
        a: 0x0F,
        x: 0x80,
        y: 0x33,
        s: 0xFF,
        p: 0,
    };
    regs.do_read(Part::Nmos, Mnemonic::Bit, Mode::Abs, 0xC0);
    let bit = regs.p;
    regs.do_read(Part::Cmos, Mnemonic::Bit, Mode::Imm, 0x01);
    let before = regs;
    regs.do_implied(Mnemonic::Sed);
    let decimal = regs;
    regs.do_modify(Mnemonic::Dec, Mode::Zp, 0x01);
    let decreased = regs.p;
    regs.do_modify(Mnemonic::Asl, Mode::Acc, 0);
    let shifted = regs;
    regs.do_implied(Mnemonic::Txs);
    let transferred = regs;
    regs.do_pull(Mnemonic::Plp, 0xFF);
    let got = [
        bit,
        before.p,
        with_flag(before.p, 0x80, false),
        before.pushed(Mnemonic::Php),
        before.stored(Mnemonic::Sty),
        decimal.modified(Mnemonic::Tsb, 0xF0),
        decimal.modified(Mnemonic::Trb, 0xFF),
        decreased,
        shifted.a,
        shifted.p,
        transferred.s,
        transferred.p,
        regs.p,
    ];
    let want = [
        0xC2, 0xC0, 0x40, 0xF0, 0x33, 0xFF, 0xF0, 0x4A, 0x1E, 0x48, 0x80, 0x48, 0xCF,
    ];
    assert!(rt; got == want);
    let are = [
        has_flag(before.p, 0x80),
        before.takes(Mnemonic::Bmi),
        before.takes(Mnemonic::Bvc),
        decimal.is_decimal(Mnemonic::Adc),
        decimal.is_decimal(Mnemonic::And),
        bus_use(Mnemonic::Trb) == BusUse::Modifies,
        bus_use(Mnemonic::Nop) == BusUse::Implied,
    ];
    assert!(rt; are == [true, true, false, true, false, true, true]);
}
