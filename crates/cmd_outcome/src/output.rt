//! The outputs that a command may have.
use beeb_bits::Side;

/// An output of a command, without its bytes. `OUT` is the name given for all outputs without one
/// of their own.
#[derive(Clone, Copy, Debug, PartialEq, Eq)]
pub enum Output {
    /// `OUT.report`
    Report,
    /// `OUT.host` and `OUT.para`: the memory of a machine.
    Memory(Side),
    /// `OUT.d0` and `OUT.d1`: the disc in a drive.
    Disc(u8),
    /// `OUT.000.ppm` and so on: a frame, by its number.
    Frame(usize),
    /// `OUT.trace`: the accesses to the Tube that are kept.
    Trace,
    /// `OUT.plug0` and so on: the bytes that a plugged device spills.
    Plug(usize),
    /// The name given by `--wav`: the sound of the host's writes to its sound chip.
    Sound,
    /// The name given by `--save`: the run as a session file.
    Session,
    /// `OUT.list`: a listing of instructions, whose bytes are stored.
    Listing,
    /// `OUT.counts`: the counts of instruction starts.
    Counts,
    /// `OUT`: bytes that are stored.
    Bytes,
}
