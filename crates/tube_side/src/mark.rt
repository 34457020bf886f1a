//! The start of a speculation of the parasite, ahead of the host.
use beeb_bits::Tick;
use std::marker::Brand;
use tube_cell::Readings;

/// The start of a speculation.
#[derive(Drop)]
pub struct Mark {
    /// The tick of the machine's next step there.
    pub tick: Tick,
    /// What the parasite can observe of the chip there.
    pub readings: Readings,
}

/// The speculation of a run. No value of it exists: the proof of a call supplies it. The code of
/// the call names `Brand` in its place.
pub trait GhostSpeculation {
    ghost use Rattle.tube_side.specs.CodeSpeculation.{Speculation};

    ghost speculation: { Speculation };
}

impl GhostSpeculation for Brand {
    ghost use Rattle.std.specs.Prelude.{[]};
    ghost use Rattle.tube_chip.specs.State.{power_on};
    ghost use Rattle.tube_cell.specs.Views.{readings_of};

    ghost speculation = { record { tick = 0; readings = readings_of power_on; until = λ t. [] } };
}
