//! The flags of the control register.
ghost use Rattle.std.specs.Prelude.{◌≡◌, ◌≤◌};
ghost use Rattle.tube_chip.specs.State.{no_flags};
ghost use Rattle.tube_chip.specs.Act.{flags_byte, flags_after, flag_after};
ghost use Rattle.tube_chip.specs.Code.{flags_of};

use beeb_bits::{bit, weight};

/// P V M J I Q, by their letters in Application Note 004.
#[derive(Clone, Copy)]
pub(crate) struct Flags {
    pub(crate) p: bool,
    pub(crate) v: bool,
    pub(crate) m: bool,
    pub(crate) j: bool,
    pub(crate) i: bool,
    pub(crate) q: bool,
}

pub(crate) fn no_flags() -> Flags
    ensures { flags_of result ≡ no_flags }
{
    Flags {
        p: false,
        v: false,
        m: false,
        j: false,
        i: false,
        q: false,
    }
}

// Returns `set` if bit `n` of the byte marks the flag, and otherwise the flag as it was.
fn marked(byte: u8, n: u8, set: bool, flag: bool) -> bool
    requires { n ≤ 7 }
    ensures { result ≡ flag_after byte n set flag }
{
    if bit(byte, n) { set } else { flag }
}

/// Returns the low six bits of the status of register 1.
#[inline(always)]
pub(crate) fn flags_byte(flags: Flags) -> u8
    ensures value { result ≡ flags_byte (flags_of flags) }
    ensures bound { result ≤ 63 }
{
    weight(32, flags.p)
        + weight(16, flags.v)
        + weight(8, flags.m)
        + weight(4, flags.j)
        + weight(2, flags.i)
        + weight(1, flags.q)
}

/// Returns the flags after a write of this byte to the control register.
pub(crate) fn flags_after(byte: u8, flags: Flags) -> Flags
    ensures { flags_of result ≡ flags_after byte (flags_of flags) }
{
    let set = bit(byte, 7);
    Flags {
        p: marked(byte, 5, set, flags.p),
        v: marked(byte, 4, set, flags.v),
        m: marked(byte, 3, set, flags.m),
        j: marked(byte, 2, set, flags.j),
        i: marked(byte, 1, set, flags.i),
        q: marked(byte, 0, set, flags.q),
    }
}
