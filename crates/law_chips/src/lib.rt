//! Laws of single chips over whole runs, above the definitions of the chips' crates. No crate
//! depends on this one.
#![tactic(auto)]

mod adapters;
mod discs;
mod keys;
mod pictures;
mod plugs;
mod roms;
mod sounds;
mod tube;

pub use adapters::{
    active_edges_set_flags, flags_are_cleared, flags_are_shown, latches_are_bytes,
    ports_show_their_bits,
};
pub use discs::{
    a_motion_arrives, a_search_ends_in_time, a_sector_is_read, a_sector_is_written,
    an_address_is_read, an_interrupt_is_forced, images_keep_their_kind, lost_data_is_told,
    sectors_follow,
};
pub use keys::a_script_is_its_keys_set_in_turn;
pub use pictures::{
    cells_show_their_codes, characters_are_shown, dots_are_colours, frames_show_their_bytes,
    frames_show_their_cells, lower_rows_follow, microseconds_are_clocks, registers_have_their_bits,
};
pub use plugs::a_ram_card_remembers;
pub use roms::a_half_rom_stands_twice;
pub use sounds::{tones_are_square_waves, volumes_are_amplitudes};
pub use tube::{registers_are_queues, registers_hold_so_many};
