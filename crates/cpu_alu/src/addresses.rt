//! Addresses, which wrap at 65,536, in the zero page or in the stack's page.
ghost use Rattle.std.specs.Prelude.{◌≡◌, ◌+◌, ◌<◌, ◌%◌};
ghost use Rattle.cpu_alu.specs.Addresses.{word, wrap, place, stack, with_stack_moved, with_pc_past, crosses_page, target};

use crate::Regs;

/// Returns the address of two bytes.
#[inline(always)]
pub fn word(low: u8, high: u8) -> u16
    ensures { result ≡ word low high }
{
    low as u16 + high as u16 * 256
}

/// Returns the address `by` above `base`, wrapping at 65,536.
#[inline(always)]
pub fn wrapping_sum(base: u16, by: u16) -> u16
    ensures { result ≡ wrap (base + by) }
{
    base.wrapping_add(by)
}

/// Returns the address `by` above `base`, wrapping in the zero page.
#[inline(always)]
pub fn in_zero_page(base: u8, by: u16) -> u16
    requires { by < 512 }
    ensures { result ≡ (base + by) % 256 }
{
    (base as u16 + by) % 256
}

/// Returns true if adding `index` to an address with the low byte `low` crosses a page.
#[inline(always)]
pub fn crosses_page(low: u8, index: u8) -> bool
    ensures { result ≡ crosses_page low index }
{
    low as u16 + index as u16 >= 256
}

impl Regs {
    /// Returns the address of byte `n` of the instruction at PC; byte 0 is its opcode.
    #[inline(always)]
    pub fn place(&self, n: u8) -> u16
        ensures { result ≡ place self.now n }
    {
        wrapping_sum(self.pc, n as u16)
    }

    /// Returns the address `k` above S, wrapping in the stack's page.
    #[inline(always)]
    pub fn stack(&self, k: u8) -> u16
        ensures { result ≡ stack self.now k }
    {
        0x100 + (self.s as u16 + k as u16) % 256
    }

    /// Moves S up by `k`, within its page.
    #[inline(always)]
    pub fn move_stack(&mut self, k: u8)
        ensures { self.new ≡ with_stack_moved self.old k }
    {
        self.s = self.s.wrapping_add(k);
    }

    /// Moves PC past an instruction of `bytes` bytes.
    #[inline(always)]
    pub fn move_past(&mut self, bytes: u8)
        ensures { self.new ≡ with_pc_past self.old bytes }
    {
        self.pc = self.place(bytes);
    }

    /// Returns the target of the branch at PC with the signed operand `by`.
    #[inline(always)]
    pub fn target(&self, by: u8) -> u16
        ensures { result ≡ target self.now by }
    {
        let high: u32 = if by >= 128 { 0xFF00 } else { 0 };
        ((self.place(2) as u32 + by as u32 + high) % 65536) as u16
    }
}
