//! Reading a session file.
ghost use Rattle.std.specs.Prelude.{◌≡◌, length, IfOk, Ok};
ghost use Rattle.save_state.specs.Fields.{field, byte, up_to, number, with_nothing_behind, Gives};
ghost use Rattle.save_state.specs.Saved.{Session, session};
ghost use Rattle.save_state.specs.File.{clock_in, header_at, list_at, file, file_of, IsSession};

use crate::entries::entries_at;
use crate::fields::{byte_at, exactly_at, number_up_to, outside};
use crate::parts::parts_at;
use crate::{Saved, StateError};
use beeb_bits::{Clock, Tick};
use std::alloc::Global;
use tube_trace::Entry;

/// The tick of the longest run.
const LAST_TICK: u32 = 1_073_741_824;

/// The most accesses that a session holds.
const MOST_ENTRIES: u32 = 4_194_304;

/// The most devices that can be plugged.
const MOST_PLUGS: u8 = 8;

// The fields before the parts.
#[derive(Clone, Copy)]
struct Header {
    clock: Clock,
    ticks: Tick,
    plugs: u8,
}

fn clock_at(bytes: &[u8], at: usize) -> Result<(Clock, usize), StateError>
    ensures { Gives (λ x. x) result (field 1 (λ b. clock_in (byte b)) bytes.now at) }
{
    let (speed, next) = byte_at(bytes, at)?;
    match speed {
        3 => Ok((Clock::Three, next)),
        4 => Ok((Clock::Four, next)),
        _ => Err(outside(at)),
    }
}

fn plugs_at(bytes: &[u8], at: usize) -> Result<(u8, usize), StateError>
    ensures { Gives (λ x. x) result (field 1 (λ b. up_to 8 (byte b)) bytes.now at) }
{
    let (plugs, next) = byte_at(bytes, at)?;
    if plugs <= MOST_PLUGS {
        Ok((plugs, next))
    } else {
        Err(outside(at))
    }
}

#[tactic(auto, unfolding(crate::specs::File::header_at))]
fn header_at(bytes: &[u8], at: usize) -> Result<(Header, usize), StateError>
    ensures { Gives (λ x. (
      record {
        clock = x.0.clock;
        ticks = x.0.ticks.0;
        plugs = x.0.plugs;
      },
      x.1,
    )) result (header_at bytes.now at) }
{
    let at = exactly_at(b"BTUB", bytes, at)?;
    let at = exactly_at(&[1], bytes, at)?;
    let (clock, at) = clock_at(bytes, at)?;
    let (ticks, at) = number_up_to(LAST_TICK, bytes, at)?;
    let (plugs, at) = plugs_at(bytes, at)?;
    let header = Header {
        clock,
        ticks: Tick(u64::from(ticks)),
        plugs,
    };
    Ok((header, at))
}

#[tactic(auto, unfolding(crate::specs::File::list_at))]
fn list_at(
    alloc: Global,
    ticks: Tick,
    bytes: &[u8],
    at: usize,
) -> Result<(Vec<Entry>, usize), StateError>
    ensures { Gives (λ x. (x.0.items, x.1)) result (list_at ticks.0 bytes.now at) }
{
    let (count, at) = number_up_to(MOST_ENTRIES, bytes, at)?;
    entries_at(alloc, ticks, count, bytes, at)
}

#[tactic(auto, unfolding(crate::specs::File::file))]
fn file(alloc: Global, bytes: &[u8]) -> Result<Saved, StateError>
    ensures { Gives session result (file bytes.now) }
{
    let (header, at) = header_at(bytes, 0)?;
    let (parts, dsd, at) = parts_at(alloc, bytes, at)?;
    let (entries, at) = list_at(alloc, header.ticks, bytes, at)?;
    if at != bytes.len() {
        return Err(outside(at));
    }
    Ok(Saved {
        clock: header.clock,
        ticks: header.ticks,
        plugs: header.plugs,
        parts,
        dsd,
        entries,
    })
}

/// Returns the session that a file holds.
///
/// # Errors
/// `BadField` exactly if the bytes are no session file: its fields are tried in order, and the
/// first at fault gives the offset. `NoMemory`.
pub fn decode(alloc: Global, bytes: &[u8]) -> Result<Saved, StateError>
    // The session, or the field at fault.
    ensures exact { Gives session result (file bytes.now) }
    // What is read keeps the rules, and the file is the one of that session.
    ensures found { IfOk result (λ s. IsSession (session s) × (bytes.now ≡ file_of (session s))) }
    // The file of a session that keeps the rules is read as that session, unless memory runs out.
    ensures only { (s : Session) → IsSession s → bytes.now ≡ file_of s → Gives session result (Ok s) }
{
    file(alloc, bytes)
}
