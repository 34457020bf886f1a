//! The beginning of a trace, which says its clock.
ghost use Rattle.std.specs.Prelude.{◌≡◌};
ghost use Rattle.tube_trace.specs.Trace.{beginning, clock_of, rest_of};

use beeb_bits::Clock;

/// Returns the text before the lines of a trace.
pub(crate) fn beginning(clock: Clock) -> &'static [u8]
    ensures { result.now ≡ beginning clock }
{
    match clock {
        Clock::Three => b"",
        Clock::Four => b"T2\n",
    }
}

/// Returns the clock of a text, and the lines after its beginning.
pub(crate) fn split_clock(bytes: &[u8]) -> (Clock, &[u8])
    ensures clock { result.0 ≡ clock_of bytes.now }
    ensures rest { result.1.now ≡ rest_of bytes.now }
{
    match bytes.strip_prefix(beginning(Clock::Four)) {
        Some(rest) => (Clock::Four, rest),
        None => (Clock::Three, bytes),
    }
}
