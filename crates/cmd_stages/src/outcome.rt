//! The outcome of a command, before it is written.
ghost use Rattle.std.specs.Prelude.{◌≡◌, IfOk, List, ℕ};
ghost use Rattle.cmd_stages.specs.View.{seen_file};

use std::alloc::{AllocError, Global};
use std::borrow::CowSlice;

/// The final state of a command. The file of each output is made or borrowed from it just before it
/// is written.
pub trait Leaves: Drop {
    /// An output, without its bytes.
    type Output: Copy;

    ghost file_of: { Self → Self.Output → List ℕ × List ℕ };

    /// Returns the name and the bytes of the file of an output. The bytes are borrowed if they are
    /// stored.
    fn file(
        &self,
        alloc: Global,
        output: Self::Output,
    ) -> Result<(String, CowSlice<'_, u8>), AllocError>
        ensures { IfOk result (λ f. seen_file f ≡ file_of self.now output) };
}

/// The outcome of a command: its ending, its outputs in the order in which they are written, and a
/// text after all of them.
#[derive(Drop)]
pub struct Outcome<E, O, L> {
    /// The ending of the command after all is written.
    pub ending: E,
    /// The outputs, in order.
    pub outputs: Vec<O>,
    /// The text, which may be empty.
    pub said: Vec<u8>,
    /// The final state from which the files of the outputs are made.
    pub left: L,
}
