//! The accesses of a side.
ghost use Rattle.std.specs.Prelude.{◌≡◌};
ghost use Rattle.cmd_replay.specs.Replay.{side_count};

use beeb_bits::{Side, Tick};
use tube_trace::Entry;

/// Returns the number of entries that a side has below a tick.
pub(crate) fn side_count(side: Side, entries: &[Entry], n: Tick) -> u64
    ensures { result ≡ side_count side n.0 entries.now }
{
    let mut count = 0;
    for entry in entries {
        if entry.side == side && entry.tick < n {
            count += 1;
        }
    }
    count
}
