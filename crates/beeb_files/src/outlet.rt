//! The trait that writes files and says texts.
ghost use Rattle.std.specs.Prelude.{◌≡◌, OnOk, OnErr, IsErrOf};
ghost use Rattle.beeb_files.specs.Counts.{Rose};
ghost use Rattle.beeb_files.specs.Files.{put, say, IsPartPut, IsPartSaid};
ghost use Rattle.beeb_files.specs.Outlet.{OutletState, NoCountFell};

use thiserror::Error;

/// The cause of bytes that were not written, or only in part.
#[derive(Clone, Copy, Debug, PartialEq, Eq, Error)]
pub enum PutError {
    /// Writing failed. The outlet counted a fault of the name, or of `say`.
    #[error("cannot write")]
    Failed,
    /// There was no memory for the bytes.
    #[error("no memory")]
    NoMemory,
}

/// An outlet, which takes files by name, and bytes that are said one after another.
pub trait Outlet {
    /// The files and the bytes said, if the outlet shows them, and the counts of faults.
    ghost outlet: { Self → OutletState };

    /// Puts the bytes under the name, in place of its old bytes. After an error the name holds its
    /// old bytes or a prefix of the new ones.
    fn put(&mut self, name: &str, bytes: &[u8]) -> Result<(), PutError>
        ensures ok { OnOk result
            ((outlet self.new).files ≡ put name.now bytes.now (outlet self.old).files) }
        ensures part { OnErr result
            (IsPartPut name.now bytes.now (outlet self.old).files (outlet self.new).files) }
        ensures said { (outlet self.new).said ≡ (outlet self.old).said }
        ensures counts { NoCountFell (outlet self.old) (outlet self.new) }
        ensures cause { IsErrOf result PutError.Failed →
            Rose ((outlet self.old).faults name.now) ((outlet self.new).faults name.now) };

    /// Says the bytes after those said before. After an error a prefix of them may have been said.
    fn say(&mut self, bytes: &[u8]) -> Result<(), PutError>
        ensures ok { OnOk result
            ((outlet self.new).said ≡ say bytes.now (outlet self.old).said) }
        ensures part { OnErr result
            (IsPartSaid bytes.now (outlet self.old).said (outlet self.new).said) }
        ensures files { (outlet self.new).files ≡ (outlet self.old).files }
        ensures counts { NoCountFell (outlet self.old) (outlet self.new) }
        ensures cause { IsErrOf result PutError.Failed →
            Rose (outlet self.old).say_faults (outlet self.new).say_faults };
}
