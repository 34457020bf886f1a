//! The sound chip.
ghost use Rattle.law_chips.specs.Tones.{TonesAreSquareWaves, VolumesAreAmplitudes};

/// A period that is written to a tone channel gives a square wave: the output changes once in each
/// period. A period of 0 is one of 1,024.
pub fn tones_are_square_waves()
    ensures { TonesAreSquareWaves }
{}

/// A volume that is written to a tone channel is its amplitude, 2 dB a step. The level is the sum,
/// and volume 15 is silence.
pub fn volumes_are_amplitudes()
    ensures { VolumesAreAmplitudes }
{}
