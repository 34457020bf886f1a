//! The trait that reads files.
ghost use Rattle.std.specs.Prelude.{◌≡◌, IfOk, IfErr};
ghost use Rattle.beeb_files.specs.Counts.{NoneFell};

use std::alloc::Global;
use thiserror::Error;

/// The cause of a file that was not read.
#[derive(Clone, Copy, Debug, PartialEq, Eq, Error)]
pub enum ShelfError {
    /// The file does not exist, or reading it failed. The shelf counted a fault of its name.
    #[error("cannot read the file")]
    Failed,
    /// The file has more bytes than the caller accepts.
    #[error("more than {cap} bytes")]
    TooLong {
        /// The most bytes that the caller accepts.
        cap: u64,
    },
    /// There was no memory for the bytes.
    #[error("no memory")]
    NoMemory,
}

/// A shelf, which holds files by name.
pub trait Shelf {
    ghost use Rattle.beeb_files.specs.Shelf.{ShelfState, IsFound, IsGetCause, SaysTooLong};

    /// The files, if the shelf shows them, and the count of faults of each name.
    ghost shelf: { Self → ShelfState };

    /// Returns all bytes of the file of this name. Returns an error if they are more than `cap`.
    fn get(&mut self, alloc: Global, name: &str, cap: u64) -> Result<Vec<u8>, ShelfError>
        ensures files { (shelf self.new).files ≡ (shelf self.old).files }
        ensures counts { NoneFell (shelf self.old).faults (shelf self.new).faults }
        ensures found { IfOk result (λ v.
            IsFound (shelf self.old) (shelf self.new) name.now cap v.items) }
        ensures cause { IfErr result (λ e.
            IsGetCause (shelf self.old) (shelf self.new) name.now cap e) }
        ensures too_long { SaysTooLong (shelf self.old) (shelf self.new) name.now cap result };
}
