//! Writing a session file.
ghost use Rattle.std.specs.Prelude.{◌≡◌, ◌++◌, Ok, OnOk, IfOk, IfSome, All, length, ◌<◌, ◌^◌};
ghost use Rattle.std.specs.List.{flat_map};
ghost use Rattle.tube_trace.specs.Entries.{IsEntry};
ghost use Rattle.save_state.specs.Saved.{session};
ghost use Rattle.save_state.specs.Parts.{part_bytes, disc_bytes};
ghost use Rattle.save_state.specs.File.{header_bytes, parts_bytes, list_bytes, speed_of, file, file_of, IsSession};

use crate::entries::{LENGTH, push_entry};
use crate::law::file_reads_back;
use crate::parts::ABSENT;
use crate::{Blob, Saved};
use beeb_bits::{Clock, NoMemory};
use std::alloc::{AllocError, Global};
use tube_trace::Entry;

fn speed_of(clock: Clock) -> u8
    ensures { result ≡ speed_of clock }
{
    match clock {
        Clock::Three => 3,
        Clock::Four => 4,
    }
}

// Returns the bytes before the parts.
fn header(clock: Clock, ticks: u32, plugs: u8) -> [u8; 11]
    ensures { result ≡ header_bytes clock ticks plugs }
{
    let [a, b, c, d] = ticks.to_be_bytes();
    [
        b'B',
        b'T',
        b'U',
        b'B',
        1,
        speed_of(clock),
        a,
        b,
        c,
        d,
        plugs,
    ]
}

fn push_part(file: &mut Vec<u8>, part: &Option<Blob>) -> Result<(), AllocError>
    requires { IfSome part.now (λ body. length body < 2 ^ 32) }
    ensures { OnOk result (file.new.items ≡ file.old.items ++ part_bytes part.now) }
{
    match part {
        None => file.extend_from_slice(&ABSENT.to_be_bytes())?,
        Some(body) => {
            let body = body.bytes();
            file.extend_from_slice(&(body.len() as u32).to_be_bytes())?;
            file.extend_from_slice(body)?;
        }
    }
    Ok(())
}

fn push_disc(file: &mut Vec<u8>, part: &Option<Blob>, dsd: bool) -> Result<(), AllocError>
    requires { IfSome part.now (λ body. length body < 2 ^ 32) }
    ensures { OnOk result (file.new.items ≡ file.old.items ++ disc_bytes part.now dsd) }
{
    match part {
        None => file.extend_from_slice(&ABSENT.to_be_bytes())?,
        Some(body) => {
            let body = body.bytes();
            file.extend_from_slice(&(body.len() as u32).to_be_bytes())?;
            file.push(u8::from(dsd))?;
            file.extend_from_slice(body)?;
        }
    }
    Ok(())
}

fn push_each(file: &mut Vec<u8>, parts: &[Option<Blob>]) -> Result<(), AllocError>
    requires { All (λ p. IfSome p (λ body. length body < 2 ^ 32)) parts.now }
    ensures { OnOk result (file.new.items ≡ file.old.items ++ flat_map part_bytes parts.now) }
{
    for part in parts {
        push_part(file, part)?;
    }
    Ok(())
}

fn push_parts(file: &mut Vec<u8>, saved: &Saved) -> Result<(), AllocError>
    requires many { length saved.now.parts.items ≡ 22 }
    requires short { All (λ p. IfSome p (λ body. length body < 2 ^ 32)) saved.now.parts.items }
    ensures { OnOk result (file.new.items ≡ file.old.items ++ parts_bytes (session saved.now)) }
{
    push_each(file, &saved.parts[..19])?;
    push_disc(file, &saved.parts[19], saved.dsd[0])?;
    push_disc(file, &saved.parts[20], saved.dsd[1])?;
    push_part(file, &saved.parts[21])
}

fn push_list(file: &mut Vec<u8>, entries: &[Entry]) -> Result<(), AllocError>
    requires few { length entries.now < 2 ^ 32 }
    requires each { All IsEntry entries.now }
    ensures { OnOk result (file.new.items ≡ file.old.items ++ list_bytes entries.now) }
{
    file.extend_from_slice(&(entries.len() as u32).to_be_bytes())?;
    for entry in entries {
        push_entry(file, *entry)?;
    }
    Ok(())
}

// Returns the number of bytes of the parts, with their length fields.
fn parts_room(parts: &[Option<Blob>]) -> usize {
    let mut room: usize = 0;
    for part in parts {
        let len = match part {
            Some(body) => body.bytes().len(),
            None => 0,
        };
        room = room.saturating_add(len).saturating_add(4);
    }
    room
}

// Returns the number of bytes of the file: the fields before the parts, the parts, the kind fields
// of two discs, and the accesses.
fn room(saved: &Saved) -> usize {
    let list = saved.entries.len().saturating_mul(LENGTH);
    parts_room(&saved.parts)
        .saturating_add(list)
        .saturating_add(17)
}

#[tactic(auto, unfolding(crate::specs::File::file_of))]
fn file_of(alloc: Global, saved: &Saved) -> Result<Vec<u8>, AllocError>
    requires { IsSession (session saved.now) }
    ensures { IfOk result (λ v. v.items ≡ file_of (session saved.now)) }
{
    let mut file = Vec::with_capacity(alloc, room(saved))?;
    file.extend_from_slice(&header(saved.clock, saved.ticks.0 as u32, saved.plugs))?;
    push_parts(&mut file, saved)?;
    push_list(&mut file, &saved.entries)?;
    Ok(file)
}

/// Returns the one file of a session.
///
/// # Errors
/// Out of memory.
pub fn encode(alloc: Global, saved: &Saved) -> Result<Vec<u8>, NoMemory>
    requires { IsSession (session saved.now) }
    ensures file { IfOk result (λ v. v.items ≡ file_of (session saved.now)) }
    // In words: `decode` returns this session.
    ensures back { IfOk result (λ v. file v.items ≡ Ok (session saved.now)) }
{
    file_reads_back();
    Ok(file_of(alloc, saved)?)
}
