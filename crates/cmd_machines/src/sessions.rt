//! A run in a session file.
ghost use Rattle.std.specs.Prelude.{◌≡◌, ◌<◌, ◌≤◌, ◌++◌, All, IfOk, IfSome, length, Option, List, ℕ, option_copied, option_map, map};
ghost use Rattle.cmd_stages.specs.View.{seen_input};
ghost use Rattle.rom_set.specs.Roms.{roms_seen};
ghost use Rattle.save_state.specs.Saved.{Session, session};
ghost use Rattle.save_state.specs.File.{IsSession};
ghost use Rattle.cmd_machines.specs.Sessions.{part_slots, rom_of_slot, part_of, has_two_sides, begun, begun_if, if_there, there, inputs_in, kind_by, setup_in};
ghost use Rattle.cmd_machines.specs.View.{items, seen_inputs, seen_setup};

use crate::inputs::Inputs;
use crate::setup::Setup;
use beeb_bits::{Clock, Tick};
use bus_plug::BusDevice;
use cmd_words::InputKind;
use disc_image::Kind;
use save_state::{Blob, Saved};
use std::alloc::{AllocError, Global};

/// The number of parts of a session.
const PARTS: usize = 22;

// Returns the purposes of a session's parts, in order.
#[tactic(auto, unfolding(crate::specs::Sessions::part_slots))]
fn part_slots() -> [InputKind; PARTS]
    ensures { result ≡ part_slots }
{
    [
        InputKind::Os,
        InputKind::Tube,
        InputKind::Rom(0),
        InputKind::Rom(1),
        InputKind::Rom(2),
        InputKind::Rom(3),
        InputKind::Rom(4),
        InputKind::Rom(5),
        InputKind::Rom(6),
        InputKind::Rom(7),
        InputKind::Rom(8),
        InputKind::Rom(9),
        InputKind::Rom(10),
        InputKind::Rom(11),
        InputKind::Rom(12),
        InputKind::Rom(13),
        InputKind::Rom(14),
        InputKind::Rom(15),
        InputKind::Font,
        InputKind::Disc(0),
        InputKind::Disc(1),
        InputKind::Keys,
    ]
}

// Makes a part of a copy of the bytes.
fn blob_of(alloc: Global, bytes: &[u8]) -> Result<Blob, AllocError>
    ensures { IfOk result (λ blob. blob ≡ bytes.now) }
{
    let bytes = bytes.to_vec(alloc)?;
    Ok(Blob::new(bytes))
}

// Makes a part that may be absent.
fn if_read(alloc: Global, bytes: &Option<Vec<u8>>) -> Result<Option<Blob>, AllocError>
    ensures { IfOk result (λ (part : Option (List ℕ)). part ≡ option_map items bytes.now) }
{
    match bytes {
        Some(bytes) => Ok(Some(blob_of(alloc, bytes)?)),
        None => Ok(None),
    }
}

// Returns the ROM of a slot. Returns the first if two have the same slot.
fn rom_of_slot(alloc: Global, roms: &[(u8, Vec<u8>)], slot: u8) -> Result<Option<Blob>, AllocError>
    ensures { IfOk result (λ (part : Option (List ℕ)). part ≡ rom_of_slot (roms_seen roms.now) slot) }
{
    for (number, bytes) in roms {
        if *number == slot {
            return Ok(Some(blob_of(alloc, bytes)?));
        }
    }
    Ok(None)
}

// Returns the bytes of a part, if they were read.
fn part_of(alloc: Global, inputs: &Inputs, slot: InputKind) -> Result<Option<Blob>, AllocError>
    ensures { IfOk result (λ (part : Option (List ℕ)). part ≡ part_of (seen_inputs inputs.now) slot) }
{
    match slot {
        InputKind::Os => Ok(Some(blob_of(alloc, &inputs.os)?)),
        InputKind::Tube => Ok(Some(blob_of(alloc, &inputs.tube)?)),
        InputKind::Rom(number) => rom_of_slot(alloc, &inputs.roms, number),
        InputKind::Font => if_read(alloc, &inputs.font),
        InputKind::Disc(0) => if_read(alloc, &inputs.disc0),
        InputKind::Disc(_) => if_read(alloc, &inputs.disc1),
        InputKind::Keys => if_read(alloc, &inputs.keys),
        InputKind::Points
        | InputKind::Trace
        | InputKind::Source
        | InputKind::Image
        | InputKind::State => Ok(None),
    }
}

// Makes the parts of a session from the inputs.
fn parts_of(alloc: Global, inputs: &Inputs) -> Result<Vec<Option<Blob>>, AllocError>
    ensures { IfOk result (λ parts. parts.items ≡ map (part_of (seen_inputs inputs.now)) part_slots) }
{
    let slots = part_slots();
    let mut parts = Vec::with_capacity(alloc, PARTS)?;
    for slot in &slots {
        parts.push(part_of(alloc, inputs, *slot)?)?;
    }
    Ok(parts)
}

// Returns true if a disc is present and its kind has two sides.
fn has_two_sides(kind: Kind, bytes: &Option<Vec<u8>>) -> bool
    ensures { result ≡ has_two_sides kind (option_map items bytes.now) }
{
    match (kind, bytes) {
        (Kind::Dsd, Some(_)) => true,
        _ => false,
    }
}

// Makes the beginning of a run from the setup and the inputs: a session of no ticks. The images and
// the script are copied, since the machines use the originals and write to their discs.
#[tactic(auto, unfolding(crate::specs::Sessions::begun))]
fn begun<D: BusDevice>(
    alloc: Global,
    setup: &Setup<D>,
    inputs: &Inputs,
) -> Result<Saved, AllocError>
    ensures { IfOk result (λ s. session s ≡ begun (seen_setup D.plug setup.now) (seen_inputs inputs.now)) }
{
    Ok(Saved {
        clock: setup.clock,
        ticks: Tick(0),
        plugs: setup.number,
        parts: parts_of(alloc, inputs)?,
        dsd: [
            has_two_sides(setup.kinds.0, &inputs.disc0),
            has_two_sides(setup.kinds.1, &inputs.disc1),
        ],
        entries: Vec::new(alloc),
    })
}

/// Makes the beginning of a run, if its session is saved under a name: a session of no ticks. The
/// images and the script are copied.
pub(crate) fn begun_if<D: BusDevice>(
    alloc: Global,
    save: Option<&str>,
    setup: &Setup<D>,
    inputs: &Inputs,
) -> Result<Option<Saved>, AllocError>
    ensures { let there = begun_if (option_copied save.entry) (seen_setup D.plug setup.now) (seen_inputs inputs.now) in
        IfOk result (λ b. option_map session b ≡ there) }
{
    match save {
        Some(_) => Ok(Some(begun(alloc, setup, inputs)?)),
        None => Ok(None),
    }
}

// Appends a part with its purpose, if it is present.
fn push_there(
    list: &mut Vec<(InputKind, Vec<u8>)>,
    slot: InputKind,
    part: Option<Blob>,
) -> Result<(), AllocError>
    ensures { IfOk result (λ _. map seen_input list.new.items ≡ map seen_input list.old.items ++ if_there slot part) }
{
    match part {
        Some(blob) => Ok(list.push((slot, blob.into_bytes()))?),
        None => Ok(()),
    }
}

// Returns the parts that are present, each with its purpose.
#[tactic(auto, using(crate::proofs::SessionLemmas::there_end))]
fn there(alloc: Global, parts: Vec<Option<Blob>>) -> Result<Vec<(InputKind, Vec<u8>)>, AllocError>
    ensures { IfOk result (λ v. map seen_input v.items ≡ there part_slots parts.items) }
{
    let slots = part_slots();
    let mut list = Vec::new(alloc);
    let mut place = 0;
    for part in parts {
        if place < PARTS {
            push_there(&mut list, slots[place], part)?;
            place += 1;
        }
    }
    Ok(list)
}

/// Makes the inputs of a session's machines from its parts.
#[tactic(auto, unfolding(crate::specs::Sessions::inputs_in))]
pub fn inputs_in(alloc: Global, parts: Vec<Option<Blob>>) -> Result<Inputs, AllocError>
    ensures inputs { (s : Session) → s.parts ≡ parts.items → IfOk result (λ i. seen_inputs i ≡ inputs_in s) }
    ensures slots { (s : Session) → IsSession s → s.parts ≡ parts.items → IfOk result (λ i. All (λ slot. slot.0 < 16) i.roms.items) }
    ensures keys { (s : Session) → IsSession s → s.parts ≡ parts.items →
        IfOk result (λ i. IfSome i.keys (λ keys. length keys.items ≤ 1048576)) }
{
    let list = there(alloc, parts)?;
    Inputs::of(alloc, list)
}

fn kind_by(double: bool) -> Kind
    ensures { result ≡ kind_by double }
{
    if double { Kind::Dsd } else { Kind::Ssd }
}

/// Makes the setup of a session's machines. The first `saved.plugs` devices of `plugs` are plugged,
/// or all if they are fewer. The others are dropped.
#[tactic(auto, unfolding(crate::specs::Sessions::setup_in), using(crate::proofs::PlugLemmas::first_plugs))]
pub fn setup_in<D: BusDevice>(saved: &Saved, plugs: Vec<D>) -> Setup<D>
    requires { saved.now.plugs ≤ 8 }
    ensures { seen_setup D.plug result ≡ setup_in (session saved.now) (map D.plug plugs.items) }
{
    let mut plugs = plugs;
    plugs.truncate(usize::from(saved.plugs));
    Setup {
        clock: saved.clock,
        kinds: (kind_by(saved.dsd[0]), kind_by(saved.dsd[1])),
        number: saved.plugs,
        plugs,
        tube: true,
    }
}
