//! Laws over runs of steps, with any levels.
ghost use Rattle.adc7002.specs.Laws.{EndsInTime, GoesOnUntilThen, GivenUpLeavesNothing};

/// States that a conversion ends at the 4,000th step after the write that began it, or at the
/// 10,000th if bit 3 is set. The registers then have the level of that step, to 8 bits or to 12.
pub fn a_conversion_ends_in_time()
    ensures { EndsInTime }
{}

/// States that the conversion is in progress until then, and the registers have the earlier result.
pub fn a_conversion_goes_on_until_its_end()
    ensures { GoesOnUntilThen }
{}

/// States that a stopped conversion leaves nothing: it never ends.
pub fn a_conversion_given_up_leaves_nothing()
    ensures { GivenUpLeavesNothing }
{}
