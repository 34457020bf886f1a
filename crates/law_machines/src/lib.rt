//! Laws of whole machines over whole runs, of the definitions in the machines' crates. No crate
//! depends on this one.
#![tactic(auto)]

mod lines;
mod pictures;
mod ticks;

pub use lines::{
    break_begins, break_resets, host_interrupts_begin, para_interrupts_begin, the_boot_rom_is_in,
};
pub use pictures::{frames_finish, shots_are_finished, the_cursor_stands};
pub use ticks::{
    host_cycles_of_the_table, host_sequences_take_their_ticks, para_cycles_of_the_table,
    para_sequences_take_their_ticks, the_host_keeps_to_its_cycles,
};
