//! The levels of the control lines, and their edges.
ghost use Rattle.std.specs.Prelude.{◌≡◌};
ghost use Rattle.via6522.specs.Lines.{is_edge, levels_of};
ghost use Rattle.via6522.specs.CodeQuiet.{levels_in};

use crate::Pins;
use beeb_bits::weight;
use std::marker::Model;

/// The levels that the four lines had in a step.
#[derive(Drop)]
pub(crate) struct ControlLines {
    // CA1, CA2, CB1 and CB2 from bit 0 up, so that all are compared at once.
    pub(crate) lines: u8,
}

impl Model for ControlLines {
    ghost use Rattle.via6522.specs.State.{ControlLines};
    ghost use Rattle.via6522.specs.CodeQuiet.{levels_in};

    ghost Value = { ControlLines };

    ghost view = { λ s. levels_in s.lines };
}

/// Reports if the line had its active edge: it rose if `up`, otherwise it fell.
pub(crate) fn is_edge(up: bool, before: bool, now: bool) -> bool
    ensures { result ≡ is_edge up before now }
{
    if up { !before && now } else { before && !now }
}

/// Returns the levels of the pins, one bit each.
#[inline(always)]
pub(crate) fn lines_of(pins: Pins) -> u8
    ensures { levels_in result ≡ levels_of pins }
{
    weight(1, pins.ca1) + weight(2, pins.ca2) + weight(4, pins.cb1) + weight(8, pins.cb2)
}
