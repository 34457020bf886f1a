//! The length of the cycles of both machines.
ghost use Rattle.std.specs.Prelude.{◌≡◌, ◌≤◌, ◌*◌};
ghost use Rattle.beeb_bits.specs.Clock.{host, para, micro};

/// The speed of the second processor, and the length of a tick. Three or four cycles of the second
/// processor take the time of two of the host's, and a tick divides both cycles.
#[derive(Clone, Copy, Debug, PartialEq, Eq)]
pub enum Clock {
    /// A second processor at 3 MHz: a tick is 1/6 microsecond.
    Three,
    /// A second processor at 4 MHz: a tick is 1/12 microsecond.
    Four,
}

impl Clock {
    /// Returns the ticks of a cycle of the host, at 2 MHz.
    #[inline]
    pub fn host(self) -> u64
        ensures value { result ≡ host self }
        ensures some { 3 ≤ result }
        ensures bound { result ≤ 6 }
    {
        match self {
            Clock::Three => 3,
            Clock::Four => 6,
        }
    }

    /// Returns the ticks of a cycle of the second processor.
    #[inline]
    pub fn para(self) -> u64
        ensures value { result ≡ para self }
        ensures some { 2 ≤ result }
        ensures bound { result ≤ 3 }
    {
        match self {
            Clock::Three => 2,
            Clock::Four => 3,
        }
    }

    /// Returns the ticks of a microsecond, which is two cycles of the host.
    #[inline]
    pub fn micro(self) -> u64
        ensures value { result ≡ micro self }
        ensures host { result ≡ 2 * host self }
        ensures some { 6 ≤ result }
        ensures bound { result ≤ 12 }
    {
        match self {
            Clock::Three => 6,
            Clock::Four => 12,
        }
    }
}
