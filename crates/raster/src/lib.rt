//! The picture: the beam of the 6845 draws the colours of the video ULA and of the teletext chip,
//! frame after frame.
#![tactic(auto)]

mod beam;
mod canvas;
mod frame;
mod law;
mod place;
mod raster;
mod screen;
mod text;

pub use frame::Frame;
pub use law::{reads_go_on, stores_below_are_unseen, sync_stays_on};
pub use raster::Raster;
