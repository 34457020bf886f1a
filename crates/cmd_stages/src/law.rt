//! The law of the stages of a command.
ghost use Rattle.cmd_stages.specs.Stages.{StopsAtReading, StopsAtWork, GoesOnToWriting};

/// Proves that a command made of the stages is carried out: its reading stops it, its work stops
/// it, or its outcome is written. So every command uses `read_all`, its own work and
/// `write_outcome`, for any work.
pub fn stages_carry_out<K: Copy, E: Drop, C: Drop>()
    ensures reading { StopsAtReading K E C }
    ensures work { StopsAtWork K E C }
    ensures writing { GoesOnToWriting K E C }
{}
