//! The images of the host's ROMs and its font.
ghost use Rattle.std.specs.Prelude.{◌≡◌, ◌<◌, All};
ghost use Rattle.rom_set.specs.Roms.{Roms, roms_seen, font_seen};
ghost use Rattle.cmd_stages.specs.View.{Gives};
ghost use Rattle.cmd_machines.specs.Roms.{rom_cause, roms_of};

use cmd_stages::Refusal;
use cmd_status::{Cause, Which};
use rom_set::{RomError, RomSet};

fn rom_cause(error: RomError) -> Cause
    ensures { result ≡ rom_cause error }
{
    match error {
        RomError::BadOs { len } => Cause::BadImage {
            which: Which::Os,
            len,
        },
        RomError::BadSlot { slot, len } => Cause::BadImage {
            which: Which::Rom(slot),
            len,
        },
        RomError::BadFont { len } => Cause::BadImage {
            which: Which::Font,
            len,
        },
    }
}

/// Makes the host's images, if each has an allowed length.
#[tactic(auto, unfolding(crate::specs::Roms::roms_of))]
pub fn roms_of(
    os: Vec<u8>,
    slots: Vec<(u8, Vec<u8>)>,
    font: Option<Vec<u8>>,
) -> Result<RomSet, Refusal<Cause>>
    requires { All (λ slot. slot.0 < 16) slots.items }
    ensures { let read : Roms = record { os = os.items; slots = roms_seen slots.items; font = font_seen font } in
        Gives (λ (roms : Roms). roms) result (roms_of read) }
{
    match RomSet::read(os, slots, font) {
        Ok(roms) => Ok(roms),
        Err(error) => Err(Refusal::Cause(rom_cause(error))),
    }
}
