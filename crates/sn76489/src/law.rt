//! Laws over runs of clocks.
ghost use Rattle.sn76489.specs.Laws.{OfEachTone, TurnsOver, TurnsAtPeriod0, TurnsAtPeriod1, NoiseRepeats, NoiseShiftsInTime, IsSilentAt15, NoiseIsSilentAt15};

/// States that a tone's output changes in the clock of the number in its counter, and then once in
/// each period. A period of 0 is one of 1,024. A tone of period 1 changes its output in each clock.
pub fn tones_turn_over()
    ensures each { OfEachTone TurnsOver }
    ensures period_0 { OfEachTone TurnsAtPeriod0 }
    ensures period_1 { OfEachTone TurnsAtPeriod1 }
{}

/// States that white noise repeats after 32,767 shifts and no fewer, and periodic noise after 15.
pub fn noise_repeats()
    ensures { NoiseRepeats }
{}

/// States that the noise shifts in each 32nd, 64th or 128th clock of the chip at rates 0 to 2.
pub fn noise_shifts_in_time()
    ensures { NoiseShiftsInTime }
{}

/// States that a voice of volume 15 is silent.
pub fn volume_15_is_silence()
    ensures tones { OfEachTone IsSilentAt15 }
    ensures noise { NoiseIsSilentAt15 }
{}
