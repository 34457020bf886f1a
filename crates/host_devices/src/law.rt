//! A law over runs of microseconds.
ghost use Rattle.host_devices.specs.Apart.{AreApart};

use raster::sync_stays_on;

/// States that each device advances by itself while vertical sync and the converter's line do not
/// change.
pub fn devices_go_on_apart()
    ensures { AreApart }
{
    sync_stays_on();
}
