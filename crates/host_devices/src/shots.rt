//! The frames that shots take.
ghost use Rattle.std.specs.Prelude.{◌≡◌, ◌<◌, ◌+◌, ◌++◌, [], ◌∷◌, length, IfOk};
ghost use Rattle.key_script.specs.Events.{shots};

use beeb_bits::NoMemory;
use key_script::{Event, What};
use raster::Frame;
use std::alloc::Global;
use std::marker::Model;

/// The frames taken, the oldest first, and memory for those to come.
#[derive(Drop)]
pub struct Shots {
    frames: Vec<Frame>,
    taken: usize,
}

impl Model for Shots {
    ghost use Rattle.std.specs.Prelude.{◌≤◌, ◌-◌, length, take};
    ghost use Rattle.host_devices.specs.Shots.{Taken};

    ghost Value = { Taken };

    ghost view = { λ s. record { frames = take s.taken s.frames.items; room = length s.frames.items - s.taken } };

    ghost invariant = { λ s. s.taken ≤ length s.frames.items };
}

// Makes a black frame for each shot of `events`.
fn black_frames(alloc: Global, events: &[Event]) -> Result<Vec<Frame>, NoMemory>
    ensures { IfOk result (λ v. length v.items ≡ shots events.now) }
{
    let mut frames = Vec::new(alloc);
    for event in events {
        if event.what == What::Shot {
            let frame = Frame::black(alloc)?;
            let Ok(()) = frames.push(frame) else {
                return Err(NoMemory);
            };
        }
    }
    Ok(frames)
}

impl Shots {
    /// Makes an empty list of frames, with memory for all shots of `events`.
    pub fn make(alloc: Global, events: &[Event]) -> Result<Shots, NoMemory>
        ensures { IfOk result (λ s. s ≡ record { frames = []; room = shots events.now }) }
    {
        let frames = black_frames(alloc, events)?;
        Ok(Shots { frames, taken: 0 })
    }

    /// Stores a frame as the next shot. It takes no memory.
    pub fn take(&mut self, frame: &Frame)
        requires room { 0 < self.old.room }
        ensures frames { (self.new).frames ≡ (self.old).frames ++ frame.now ∷ [] }
        ensures room { (self.new).room + 1 ≡ (self.old).room }
    {
        self.frames[self.taken].copy_from(frame);
        self.taken += 1;
    }

    /// Returns the frames taken.
    pub fn frames(&self) -> &[Frame]
        ensures { result.now ≡ (self.now).frames }
    {
        &self.frames[..self.taken]
    }
}
