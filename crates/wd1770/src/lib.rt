//! The WD1770 floppy disc controller with two drives and the disc latch, one microsecond at a time
//! (WD1770 data sheet). The places of sectors on a track, the gaps between them and all times are
//! this project's profile.
//!
//! The discs turn once in 200,000 microseconds. A track has 3,125 places of 64 microseconds, and
//! its sector k begins at place 312k.
#![tactic(auto)]

mod addresses;
mod command;
mod controller;
mod drive;
mod fdc;
mod lapse;
mod law;
mod motion;
mod sectors;

pub use fdc::Fdc;
pub use law::{
    a_controller_stays_sound, a_motion_takes_its_time, an_idle_controller_stays, the_discs_turn,
};
