//! The SAA5050, the teletext character generator (SAA5050 data sheet): the codes of a row, one
//! after another, and the pixels of each on a line.
#![tactic(auto)]

mod dots;
mod glyphs;
mod law;
mod row;
mod style;

pub use glyphs::GlyphTable;
pub use law::row_is_fold;
pub use row::RowState;
