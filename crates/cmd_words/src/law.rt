//! Laws over the definitions.
ghost use Rattle.cmd_words.specs.Order.{AreOrderFree};
ghost use Rattle.cmd_words.specs.Places.{StandAnywhere};

/// Proves that the order of the options does not matter.
#[tactic(auto, using(crate::proofs::OrderLemmas::order_free))]
pub fn options_are_order_free()
    ensures { AreOrderFree }
{}

/// Proves that options may come in any place after the command word, over whole lists of words.
#[tactic(auto, using(crate::proofs::PlaceLemmas::stand_anywhere))]
pub fn options_stand_anywhere()
    ensures { StandAnywhere }
{}
