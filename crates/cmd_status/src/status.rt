//! The endings of the program.
ghost use Rattle.std.specs.Prelude.{◌≡◌, ◌++◌, IfOk, Some, codes};
ghost use Rattle.std.specs.Fmt.{decimal};
ghost use Rattle.cmd_status.specs.Status.{number, which_text, text, end_of};

use beeb_bits::NoMemory;
use cmd_stages::{Name, Stop};
use std::alloc::{AllocError, Global};
use tube_party::Doing;

/// The purpose of an image among those that a command reads.
#[derive(Clone, Copy, Debug, PartialEq, Eq)]
pub enum Which {
    /// The host's operating system.
    Os,
    /// The second processor's boot ROM.
    Tube,
    /// The paged ROM of a slot from 0 to 15.
    Rom(u8),
    /// The teletext font.
    Font,
    /// The disc of drive 0 or 1.
    Disc(u8),
    /// The image to disassemble.
    Image,
}

/// The status of a command's end.
#[derive(Debug, Drop)]
pub enum Status {
    /// The outputs were written.
    Done,
    /// The words spell no command.
    Usage,
    /// The file of this name could not be read.
    ReadFault { name: Name },
    /// The file of this name is longer than the command accepts.
    TooLong { name: Name },
    /// The image has a length outside its set.
    BadImage { which: Which, len: u64 },
    /// The key script's first offending line, counted from 1: outside its form (kind 1) or its
    /// order (kind 2), or the line of the 257th shot (kind 3).
    BadScript { line: u64, kind: u8 },
    /// The first offending line of the file of addresses, counted from 1: outside its form (kind
    /// 1), or not rising (kind 2).
    BadPoints { line: u64, kind: u8 },
    /// The trace's first offending line, counted from 1: outside its form (kind 1) or its order
    /// (kind 2). Line 1 of a trace of the other clock (kind 4), or of any trace if there is no Tube
    /// (kind 5).
    BadTrace { line: u64, kind: u8 },
    /// The source text's first offending line, counted from 1: syntax (kind 1), no such form (2),
    /// unknown label (3), repeated label (4), out of range (5), past the end of memory (6).
    BadSource { line: u64, kind: u8 },
    /// The offset of the session file's first wrong field; the file's length, if the file ends
    /// before or inside that field; or the offset of the first byte after the last field.
    BadState { at: u64 },
    /// The file of this name could not be written, or the text could not be said if the name is
    /// `-`.
    WriteFault { name: Name },
    /// No thread could be started.
    NoThread,
    /// There was no memory.
    NoMemory,
    /// The trace's first line, counted from 1, whose answer is not the chip's, and the byte that
    /// the chip gives.
    Wrong { line: u64, byte: u8 },
    /// The line of the trace, counted from 1, at which the replayed machine differs, and the
    /// machine's access there, if it makes one. The line is one past the last if the trace has no
    /// more lines of the machine's side.
    Differs { line: u64, doing: Option<Doing> },
}

/// The ending of a command whose outputs were written.
#[derive(Debug, Drop)]
pub enum Ending {
    /// The command ended as requested.
    Done,
    /// The trace's first line, counted from 1, whose answer is not the chip's, and the byte that
    /// the chip gives.
    Wrong { line: u64, byte: u8 },
    /// The line of the trace, counted from 1, at which the replayed machine differs, and the
    /// machine's access there.
    Differs { line: u64, doing: Option<Doing> },
}

/// The cause of a refusal of what a command read.
#[derive(Debug, Drop)]
pub enum Cause {
    /// The image has a length outside its set.
    BadImage { which: Which, len: u64 },
    /// The key script's first offending line, counted from 1, and the kind of its fault.
    BadScript { line: u64, kind: u8 },
    /// The first offending line of the file of addresses, counted from 1, and the kind of its
    /// fault.
    BadPoints { line: u64, kind: u8 },
    /// The trace's first offending line, counted from 1: outside its form (kind 1) or its order
    /// (kind 2). Line 1 of a trace of the other clock (kind 4), or of any trace if there is no Tube
    /// (kind 5).
    BadTrace { line: u64, kind: u8 },
    /// The source text's first offending line, counted from 1, and the kind of its fault.
    BadSource { line: u64, kind: u8 },
    /// The offset at which the session file is outside its form.
    BadState { at: u64 },
}

/// Returns the status of a command's end.
pub fn status_of(end: Result<Ending, Stop<Cause>>) -> Status
    ensures { end_of result ≡ Some end }
{
    match end {
        Ok(Ending::Done) => Status::Done,
        Ok(Ending::Wrong { line, byte }) => Status::Wrong { line, byte },
        Ok(Ending::Differs { line, doing }) => Status::Differs { line, doing },
        Err(Stop::Refused(Cause::BadImage { which, len })) => Status::BadImage { which, len },
        Err(Stop::Refused(Cause::BadScript { line, kind })) => Status::BadScript { line, kind },
        Err(Stop::Refused(Cause::BadPoints { line, kind })) => Status::BadPoints { line, kind },
        Err(Stop::Refused(Cause::BadTrace { line, kind })) => Status::BadTrace { line, kind },
        Err(Stop::Refused(Cause::BadSource { line, kind })) => Status::BadSource { line, kind },
        Err(Stop::Refused(Cause::BadState { at })) => Status::BadState { at },
        Err(Stop::ReadFault(name)) => Status::ReadFault { name },
        Err(Stop::TooLong(name)) => Status::TooLong { name },
        Err(Stop::WriteFault(name)) => Status::WriteFault { name },
        Err(Stop::NoThread) => Status::NoThread,
        Err(Stop::NoMemory) => Status::NoMemory,
    }
}

fn joined(alloc: Global, front: &str, back: &[u8]) -> Result<Vec<u8>, AllocError>
    ensures { IfOk result (λ v. v.items ≡ front.now ++ back.now) }
{
    let mut bytes = front.as_bytes().to_vec(alloc)?;
    bytes.extend_from_slice(back)?;
    Ok(bytes)
}

fn numbered(alloc: Global, front: &str, n: u64) -> Result<Vec<u8>, AllocError>
    ensures { IfOk result (λ v. v.items ≡ front.now ++ decimal n) }
{
    let digits = format!(in alloc; "{n}")?;
    joined(alloc, front, digits.as_bytes())
}

fn which_text(alloc: Global, which: Which) -> Result<Vec<u8>, AllocError>
    ensures { IfOk result (λ v. v.items ≡ which_text which) }
{
    match which {
        Which::Os => joined(alloc, "os", &[]),
        Which::Tube => joined(alloc, "tube", &[]),
        Which::Rom(slot) => numbered(alloc, "rom", u64::from(slot)),
        Which::Font => joined(alloc, "font", &[]),
        Which::Disc(drive) => numbered(alloc, "disc", u64::from(drive)),
        Which::Image => joined(alloc, "image", &[]),
    }
}

fn bad_image(alloc: Global, which: Which, len: u64) -> Result<Vec<u8>, AllocError>
    ensures { IfOk result (λ v. v.items ≡ codes "bad image " ++ which_text which ++ codes " " ++ decimal len) }
{
    let mut bytes = joined(alloc, "bad image ", &[])?;
    bytes.extend_from_slice(&which_text(alloc, which)?)?;
    bytes.extend_from_slice(&numbered(alloc, " ", len)?)?;
    Ok(bytes)
}

impl Status {
    /// Returns the exit status of the program, from 0 to 8.
    pub fn number(&self) -> u8
        ensures { result ≡ number self.now }
    {
        match self {
            Status::Done => 0,
            Status::Usage => 1,
            Status::ReadFault { .. } | Status::TooLong { .. } => 2,
            Status::BadImage { .. } => 3,
            Status::BadScript { .. }
            | Status::BadPoints { .. }
            | Status::BadTrace { .. }
            | Status::BadSource { .. }
            | Status::BadState { .. } => 4,
            Status::WriteFault { .. } => 5,
            Status::NoThread => 6,
            Status::NoMemory => 7,
            Status::Wrong { .. } | Status::Differs { .. } => 8,
        }
    }

    /// Returns the text for standard error, without a line feed. `Done`, `Wrong` and `Differs` have
    /// no text.
    pub fn text(&self, alloc: Global) -> Result<Vec<u8>, NoMemory>
        ensures { IfOk result (λ v. v.items ≡ text self.now) }
    {
        let bytes = match self {
            Status::Done | Status::Wrong { .. } | Status::Differs { .. } => Ok(Vec::new(alloc)),
            Status::Usage => joined(alloc, "usage", &[]),
            Status::ReadFault { name } => joined(alloc, "cannot read ", name.as_bytes()),
            Status::TooLong { name } => joined(alloc, "too long ", name.as_bytes()),
            Status::BadImage { which, len } => bad_image(alloc, *which, *len),
            Status::BadScript { line, .. } => numbered(alloc, "bad script ", *line),
            Status::BadPoints { line, .. } => numbered(alloc, "bad points ", *line),
            Status::BadTrace { line, .. } => numbered(alloc, "bad trace ", *line),
            Status::BadSource { line, .. } => numbered(alloc, "bad source ", *line),
            Status::BadState { at } => numbered(alloc, "bad state ", *at),
            Status::WriteFault { name } => joined(alloc, "cannot write ", name.as_bytes()),
            Status::NoThread => joined(alloc, "no thread", &[]),
            Status::NoMemory => joined(alloc, "no memory", &[]),
        };
        Ok(bytes?)
    }
}
