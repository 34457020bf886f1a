//! Ticks and cycles, the two sides, the bits of a byte, and running out of memory.
#![tactic(auto)]

ghost use Rattle.std.specs.Prelude.{◌≡◌, ◌≤◌, ◌<◌, ◌⊎◌, ◌↔◌, IsTrue};
ghost use Rattle.beeb_bits.specs.Bits.{bit, weight};
ghost use Rattle.beeb_bits.specs.Order.{before};
ghost use Rattle.beeb_bits.specs.declared.Side.TheVariants.{Host, Para};

mod clock;
mod memory;

pub use clock::Clock;
pub use memory::{NoMemory, zeroed};

/// A moment of the clock that both machines share, in ticks of 1/6 or 1/12 microsecond from
/// power-on.
#[derive(Clone, Copy, Debug, PartialEq, Eq, PartialOrd, Ord)]
pub struct Tick(pub u64);

/// One of the two machines.
#[derive(Clone, Copy, Debug, PartialEq, Eq)]
pub enum Side {
    /// The BBC Micro.
    Host,
    /// The 6502 Second Processor.
    Para,
}

/// A type that can be sent to another thread.
pub trait Crosses: Send {}

/// Returns bit `n` of `v`. Bit 0 is the lowest.
pub fn bit(v: u8, n: u8) -> bool
    requires { n < 8 }
    ensures { result ≡ bit v n }
{
    (v >> n) % 2 == 1
}

/// Returns the weight of a set bit, otherwise 0.
pub fn weight(n: u8, is_set: bool) -> u8
    ensures value { result ≡ weight n is_set }
    ensures bound { result ≤ n }
{
    if is_set { n } else { 0 }
}

/// Reports if a step of `x` at tick `a` comes before one of `y` at tick `b`.
pub fn before(a: Tick, x: Side, b: Tick, y: Side) -> bool
    ensures value { result ≡ before a.0 x b.0 y }
    // In words: at a smaller tick, or at the same tick and the host's before the parasite's.
    ensures order { IsTrue result ↔ (a.0 < b.0) ⊎ ((a.0 ≡ b.0) × (x ≡ Host) × (y ≡ Para)) }
{
    a < b || (a == b && x == Side::Host && y == Side::Para)
}
