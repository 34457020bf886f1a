//! Memory as a whole instruction reaches it.
ghost use Rattle.std.specs.Prelude.{ℕ, ◌≡◌, ◌<◌, ◌≤◌, ◌+◌, ◌^◌, true};
ghost use Rattle.cpu_whole.specs.Whole.{Reach, IsPlain, AreRead};

/// Memory as a whole instruction accesses it. An access to a plain address reads or writes a byte
/// and has no other effect. The zero page and the stack are always plain. Writes may be noted in an
/// `N`. A `false` from one of the three tests promises nothing.
pub trait Plain<N> {
    /// The state that contracts see.
    ghost State: { Type 0 };

    ghost state: { Self → State };

    /// The accesses that are of plain memory, the bytes that they show, and their effects.
    ghost reach: { Reach State };

    ghost is_plain: { IsPlain reach };

    /// An instruction that begins at the given tick may write from the given cycle on.
    ghost may_come: { State → ℕ → ℕ → Type 0 };

    ghost later: { (s : State) (t n k : ℕ) → may_come s t n → n ≤ k → may_come s t k };

    /// The part of a state that undoing the noted writes restores.
    ghost Kept: { Type 0 };

    ghost before: { N → Self → Kept };

    /// The least number of writes for which there is room.
    ghost room: { N → ℕ };

    /// Returns `true` only if the three bytes from `pc` on are read as plain memory.
    fn runs(&self, pc: u16) -> bool
        ensures { result ≡ true → AreRead reach pc };

    /// Returns `true` only if a read of the address `at` is one of plain memory.
    fn reads(&self, at: u16) -> bool
        ensures { result ≡ true → reach.reads at ≡ true };

    /// Returns `true` only if reads of and writes to `at` are of plain memory and there is room for
    /// two writes.
    fn writes(&self, at: u16, notes: &N) -> bool
        ensures read { result ≡ true → reach.reads at ≡ true }
        ensures written { result ≡ true → reach.writes at ≡ true }
        ensures room { result ≡ true → 2 ≤ room notes.now };

    /// Returns the byte at an address of plain memory.
    fn byte(&self, at: u16) -> u8
        requires { reach.reads at ≡ true }
        ensures { result ≡ reach.byte (state self.now) at };

    /// Writes to plain memory in cycle `cycle` of an instruction that begins at tick `t`. The first
    /// cycle has the number 0.
    fn put(&mut self, t: u64, cycle: u64, at: u16, byte: u8, notes: &mut N)
        requires plain { reach.writes at ≡ true }
        requires room { 1 ≤ room notes.old }
        requires order { may_come (state self.old) t cycle }
        requires tick { t < 2 ^ 40 }
        requires few { cycle < 8 }
        ensures put { state self.new ≡ reach.put (state self.old) t cycle at byte }
        ensures order { may_come (state self.new) t (cycle + 1) }
        ensures noted { before notes.new self.new ≡ before notes.old self.old }
        ensures room { room notes.old ≤ room notes.new + 1 };
}
