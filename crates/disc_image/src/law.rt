//! Laws of reading and writing.
ghost use Rattle.disc_image.specs.Laws.{IsReadBack, OthersStay, GrowsToTheEnd, PlacesDiffer};

/// States that a byte put is read back, all others stay, and no two bytes of a disc have one place.
pub fn a_byte_put_is_read_back()
    ensures back { IsReadBack }
    ensures others { OthersStay }
    ensures length { GrowsToTheEnd }
    ensures places { PlacesDiffer }
{}
