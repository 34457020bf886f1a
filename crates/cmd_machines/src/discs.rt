//! The discs in drive 0 and drive 1, made from the files that were read.
ghost use Rattle.std.specs.Prelude.{Option, option_map};
ghost use Rattle.disc_image.specs.Image.{Image};
ghost use Rattle.cmd_stages.specs.View.{Gives};
ghost use Rattle.cmd_machines.specs.Discs.{disc_of, discs_of};
ghost use Rattle.cmd_machines.specs.View.{items};

use cmd_stages::Refusal;
use cmd_status::{Cause, Which};
use disc_image::{Disc, DiscError, Kind};
use std::alloc::Global;

// Makes the disc in a drive, if one is given.
#[tactic(auto, unfolding(crate::specs::Discs::disc_of))]
fn disc_of(
    alloc: Global,
    drive: u8,
    kind: Kind,
    bytes: Option<Vec<u8>>,
) -> Result<Option<Disc>, Refusal<Cause>>
    ensures { Gives (λ (disc : Option Image). disc) result (disc_of drive kind (option_map items bytes)) }
{
    let Some(bytes) = bytes else {
        return Ok(None);
    };
    match Disc::make(alloc, kind, bytes) {
        Ok(disc) => Ok(Some(disc)),
        Err(DiscError::BadDisc { len }) => Err(Refusal::Cause(Cause::BadImage {
            which: Which::Disc(drive),
            len,
        })),
        Err(DiscError::NoMemory) => Err(Refusal::NoMemory),
    }
}

/// Makes the discs of both drives, by their kinds and their images.
#[tactic(auto, unfolding(crate::specs::Discs::discs_of))]
pub fn discs_of(
    alloc: Global,
    kinds: (Kind, Kind),
    disc0: Option<Vec<u8>>,
    disc1: Option<Vec<u8>>,
) -> Result<(Option<Disc>, Option<Disc>), Refusal<Cause>>
    ensures { let made = discs_of kinds (option_map items disc0) (option_map items disc1) in
        Gives (λ (discs : Option Image × Option Image). discs) result made }
{
    let d0 = disc_of(alloc, 0, kinds.0, disc0)?;
    let d1 = disc_of(alloc, 1, kinds.1, disc1)?;
    Ok((d0, d1))
}
