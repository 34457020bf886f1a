//! The 6845, or cathode ray tube controller, one character clock at a time (6845 data sheet).
#![tactic(auto)]

mod at_rest;
mod crtc;
mod inside;
mod law;
mod quiet;
mod registers;
mod shown;

pub use crtc::Crtc;
pub use law::{
    clocks_at_rest_are_alike, frames_have_their_clocks, lines_have_their_characters,
    no_sync_beyond_the_rows, shown_addresses_count, sync_comes_in_each_line,
    vertical_sync_comes_in_each_frame, vertical_sync_has_its_lines,
};

/// The outputs of one character clock.
#[derive(Clone, Copy, Debug, PartialEq, Eq)]
pub struct Beam {
    /// The character is shown: display enable, DISPEN.
    pub shown: bool,
    /// The character's address, of 14 bits: MA0 to MA13.
    pub ma: u16,
    /// The character's raster of the row, of 5 bits: RA0 to RA4.
    pub ra: u8,
    /// The cursor is on the character.
    pub cursor: bool,
    /// The character is the first of its line.
    pub line_start: bool,
    /// Horizontal sync, HSYNC, begins with the character.
    pub sync_start: bool,
    /// Vertical sync, VSYNC, begins with the character: the drawn frame is finished.
    pub frame_end: bool,
    /// The number of times that vertical sync began, modulo 2^32.
    pub fields: u32,
    /// The character is the last of its line, the line is the last of its row, and another row
    /// follows.
    pub row_end: bool,
    /// The character is the last of its frame.
    pub restart: bool,
}

/// The frames that several character clocks finish.
#[derive(Clone, Copy, Debug, PartialEq, Eq)]
pub struct Finished {
    /// The number of frames that the clocks finish.
    pub frames: u64,
    /// The number of clocks after the last one that finished a frame, or of all clocks if none did.
    pub past: u64,
}

/// The next characters, all alike and inside a line.
#[derive(Clone, Copy, Debug, PartialEq, Eq)]
pub struct Span {
    /// The number of characters.
    pub clocks: u16,
    /// The characters are shown.
    pub shown: bool,
    /// The first character's address, of 14 bits.
    pub ma: u16,
    /// The characters' raster of the row, of 5 bits.
    pub ra: u8,
    /// The cursor is on the first character, and on no other.
    pub cursor: bool,
    /// Horizontal sync begins after `to_sync` of the characters, if `clocks` is above `to_sync`.
    pub to_sync: u16,
    /// The number of times that vertical sync began, modulo 2^32.
    pub fields: u32,
}

/// Two windows of addresses, of 14 bits: that of the current frame, and that of later frames.
#[derive(Clone, Copy, Debug, PartialEq, Eq)]
pub struct Windows {
    /// The first address of the current row.
    pub base: u16,
    /// The number of addresses from `base` on that the current frame may still show.
    pub count: u16,
    /// The first address of later frames.
    pub start: u16,
    /// The number of addresses from `start` on that a later frame shows.
    pub frame: u16,
}
