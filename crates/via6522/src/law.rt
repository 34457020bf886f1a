//! Laws over whole runs of steps.
ghost use Rattle.via6522.specs.Laws.{Timer1RunsFree, Timer1FiresOnce, Timer2FiresOnce};

/// States that timer 1 in free-running mode sets its flag every v + 2 steps, if its latch is v.
pub fn timer1_runs_free()
    ensures { Timer1RunsFree }
{}

/// States that timer 1 in one-shot mode sets its flag once, v + 2 steps after v is written.
pub fn timer1_fires_once()
    ensures { Timer1FiresOnce }
{}

/// States that timer 2 sets its flag once, v + 2 steps after v is written.
pub fn timer2_fires_once()
    ensures { Timer2FiresOnce }
{}
