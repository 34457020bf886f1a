//! The Tube.
ghost use Rattle.law_chips.specs.Queues.{RegistersAreQueues, NothingIsLost, FifoLosesNothing, RegistersHold};

/// Each register of the Tube is a queue in each direction: bytes leave it in the order they
/// entered.
pub fn registers_are_queues()
    ensures all { RegistersAreQueues }
    ensures nothing_lost { NothingIsLost }
    ensures fifo { FifoLosesNothing }
{}

/// The registers of the Tube hold 24 bytes, two, or one.
pub fn registers_hold_so_many()
    ensures { RegistersHold }
{}
