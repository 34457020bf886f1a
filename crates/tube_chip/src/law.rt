//! Laws over the definitions.
ghost use Rattle.tube_chip.specs.Laws.{RisingListIsMerge};
ghost use Rattle.tube_chip.specs.Packing.{PackingIsOneToOne};

/// A list of events that rises by tick, with the host's first at equal ticks, is the merge of its
/// host's and its parasite's events.
pub fn rising_list_is_merge()
    ensures { RisingListIsMerge }
{}

/// Two chips with the same six words are the same.
pub fn packing_is_one_to_one()
    ensures { PackingIsOneToOne }
{}
