//! Numbers in the words of a line.
ghost use Rattle.std.specs.Prelude.{◌<◌};

use cpu_alu::Regs;
use digits::{four_digits, two_digits};

/// Returns the value of a hexadecimal digit.
fn digit(b: u8) -> u8
    ensures { result < 16 }
{
    if b < b'A' {
        b.saturating_sub(b'0') % 16
    } else {
        b.saturating_sub(b'A' - 10) % 16
    }
}

/// Returns the byte of two hexadecimal digits.
pub(super) fn byte(high: u8, low: u8) -> u8 {
    16 * digit(high) + digit(low)
}

/// Returns true if a text is PC, A, X, Y, S and P.
pub(super) fn are(text: &[u8], regs: Regs) -> bool {
    let [i, j, k, l] = four_digits(regs.pc);
    let [a, b] = two_digits(regs.a);
    let [x, m] = two_digits(regs.x);
    let [y, n] = two_digits(regs.y);
    let [s, t] = two_digits(regs.s);
    let [p, q] = two_digits(regs.p);
    text == [
        i, j, k, l, b' ', a, b, b' ', x, m, b' ', y, n, b' ', s, t, b' ', p, q,
    ]
    .as_slice()
}

/// Returns true if the registers are these. If the text has no X, Y and S, they stay as they were.
pub(super) fn leaves(before: Regs, text: &[u8], after: Regs) -> bool {
    let [x, m] = two_digits(before.x);
    let [y, n] = two_digits(before.y);
    let [s, t] = two_digits(before.s);
    match text {
        [i, j, k, l, b' ', a, b, b' ', p, q] => are(
            &[
                *i, *j, *k, *l, b' ', *a, *b, b' ', x, m, b' ', y, n, b' ', s, t, b' ', *p, *q,
            ],
            after,
        ),
        _ => are(text, after),
    }
}

/// Returns the registers at 040D.
pub(super) fn registers(a: u8, x: u8, y: u8, s: u8, p: u8) -> Regs {
    let pc = 0x040D;
    Regs { pc, a, x, y, s, p }
}

/// Returns the registers before an instruction. LOW: no indexed address crosses a page, and all
/// flags are clear. HIGH: indexed addresses cross pages, the stack wraps at a push, and all flags
/// except D are set. TOP: addresses wrap, and the stack wraps at a pull. DECIMAL: D and C are set.
pub(super) fn before(name: &str) -> Option<Regs> {
    match name {
        "LOW" => Some(registers(0x5A, 0x23, 0x14, 0xFD, 0x00)),
        "HIGH" => Some(registers(0xC3, 0x23, 0xE4, 0x00, 0xC7)),
        "TOP" => Some(registers(0x80, 0xFF, 0xFF, 0xFF, 0x04)),
        "DECIMAL" => Some(registers(0x58, 0x23, 0x14, 0xFD, 0x09)),
        _ => None,
    }
}
