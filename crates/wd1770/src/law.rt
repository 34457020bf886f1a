//! Laws over whole runs.
ghost use Rattle.wd1770.specs.Laws.{IdleStays, MotorGoesOff, MotionTakesItsTime, MotionEnds};
ghost use Rattle.wd1770.specs.History.{TurnsOn, StaysSound};

/// States that a turn of the discs takes 200,000 steps. After power-on, step m is at angle m mod
/// 200,000, with any accesses between the steps.
pub fn the_discs_turn()
    ensures { TurnsOn }
{}

/// States that, after power-on, the heads are at tracks 0 to 83, and INTRQ is clear while a command
/// is in progress. In reset no command is in progress, and DRQ and INTRQ are clear.
pub fn a_controller_stays_sound()
    ensures { StaysSound }
{}

/// States that only the angle and the motor's time change if no command is in progress.
pub fn an_idle_controller_stays()
    ensures state { IdleStays }
    ensures motor { MotorGoesOff }
{}

/// States that a type I command takes its time, and then ends with INTRQ.
pub fn a_motion_takes_its_time()
    ensures busy { MotionTakesItsTime }
    ensures end { MotionEnds }
{}
