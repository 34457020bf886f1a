//! Laws over whole runs.
ghost use Rattle.raster.specs.Reads.{ReadsGoOn, StoresBelowAreUnseen, SyncStaysOn};

/// States that a byte that is not read from now on is not read later, until a register is written.
pub fn reads_go_on()
    ensures { ReadsGoOn }
{}

/// States that the picture does not depend on a byte that is not read from now on.
pub fn stores_below_are_unseen()
    ensures { StoresBelowAreUnseen }
{}

/// States that vertical sync, unchanged for n microseconds, stays for the other n - m after m of
/// them.
pub fn sync_stays_on()
    ensures { SyncStaysOn }
{}
