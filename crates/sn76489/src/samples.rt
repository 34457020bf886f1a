//! The samples of a list of writes.
ghost use Rattle.std.specs.Prelude.{◌≡◌, ◌≤◌, ◌<◌, ◌+◌, ◌-◌, ◌*◌, ◌/◌, ◌^◌, IfOk, length};
ghost use Rattle.sn76489.specs.Samples.{NeverFallFrom, samples};
ghost use Rattle.sn76489.specs.CodeWrites.{caught_up, pending_writes};

use crate::SoundWrite;
use crate::chip::Sound;
use beeb_bits::NoMemory;
use std::alloc::Global;

impl Sound {
    // Does the writes up to `moment`, and returns those that are left.
    fn catch_up<'a>(&mut self, writes: &'a [SoundWrite], moment: u64) -> &'a [SoundWrite]
        ensures chip { self.new ≡ caught_up moment writes.now self.old }
        ensures left { result.now ≡ pending_writes moment writes.now }
    {
        let mut left = writes;
        while let Some((first, behind)) = left.split_first() {
            if moment < first.moment {
                break;
            }
            self.write(first.byte);
            left = behind;
        }
        left
    }
}

// Returns a number of clocks, from `clock` on and below `clocks`, that can be done at once: up to
// the next one with a sample after it. Returns 1 if a write is due before that.
fn clocks_at_once(writes: &[SoundWrite], clock: u64, clocks: u64) -> u64
    requires order { NeverFallFrom (4 * clock + 1) writes.now }
    requires some { clock < clocks }
    requires few { clocks ≤ 2 ^ 28 }
    ensures some { 0 < result }
    ensures within { clock + result ≤ clocks }
    ensures samples { clock + result ≤ (clock + 7) / 8 * 8 + 1 }
    ensures free { NeverFallFrom (4 * (clock + (result - 1)) + 1) writes.now }
{
    let next = clocks.min((clock + 7) / 8 * 8 + 1);
    match writes.first() {
        Some(write) if write.moment < 4 * next => 1,
        _ => next - clock,
    }
}

/// Returns the samples of `writes` over `steps` steps of a microsecond, from power-on. There is a
/// clock at each fourth step and a sample at each 32nd, the first at step 0.
///
/// # Errors
/// Out of memory.
pub fn render(alloc: Global, writes: &[SoundWrite], steps: u64) -> Result<Vec<i16>, NoMemory>
    requires order { NeverFallFrom 0 writes.now }
    requires steps { steps ≤ 2 ^ 28 }
    ensures samples { IfOk result (λ list. list.items ≡ samples writes.now steps) }
    ensures count { IfOk result (λ list. length list.items ≡ (steps + 31) / 32) }
{
    let mut list = Vec::with_capacity(alloc, steps.div_ceil(32) as usize)?;
    let mut sound = Sound::new();
    let mut left = writes;
    let clocks = steps.div_ceil(4);
    let mut clock = 0;
    while clock < clocks {
        left = sound.catch_up(left, 4 * clock);
        let some = clocks_at_once(left, clock, clocks);
        sound.advance(some);
        clock += some;
        if clock % 8 == 1 {
            list.push_reserved(sound.level());
        }
    }
    Ok(list)
}
