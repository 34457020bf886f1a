//! Disc images of the BBC Micro, sector by sector.
#![tactic(auto)]

mod disc;
mod law;

pub use disc::Disc;
pub use law::a_byte_put_is_read_back;
use thiserror::Error;

/// The order of a disc's bytes in an image. (Acorn, Disc Filing System User Guide: 80 tracks of 10
/// sectors of 256 bytes a side.)
#[derive(Clone, Copy, Debug, PartialEq, Eq)]
pub enum Kind {
    /// One side: its tracks in order.
    Ssd,
    /// Both sides: side 0 and then side 1 of each track.
    Dsd,
}

/// The reason for which there is no disc.
#[derive(Clone, Copy, Debug, PartialEq, Eq, Error)]
pub enum DiscError {
    /// The image is longer than the largest of its kind: 204,800 bytes for an SSD and 409,600 for a
    /// DSD.
    #[error("the disc image has {len} bytes")]
    BadDisc { len: u64 },
    #[error("no memory")]
    NoMemory,
}
