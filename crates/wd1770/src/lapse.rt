//! Quiet steps: only the discs' angle and the waiting times change.
ghost use Rattle.std.specs.Prelude.{◌≡◌, ◌≤◌, ◌<◌, ◌-◌};
ghost use Rattle.wd1770.specs.CodeQuiet.{angle_later, command_later, motor_later, later, steps_between, steps_before, quiet_steps};

use crate::command::Command;
use crate::controller::{Controller, TURN_TIME, next_angle};
use crate::sectors::{PLACE_TIME, SECTOR_PLACES};

/// Returns the angle `n` steps later.
pub(crate) fn angle_later(n: u64, angle: Option<u32>) -> Option<u32>
    ensures { result ≡ angle_later n angle }
{
    if n == 0 {
        return angle;
    }
    let turned = u64::from(next_angle(angle)) + (n - 1) % u64::from(TURN_TIME);
    Some((turned % u64::from(TURN_TIME)) as u32)
}

/// Returns the rest of a time after `n` steps.
fn less(time: u32, n: u64) -> u32
    ensures { result ≡ time - n }
{
    if n < u64::from(time) {
        time - n as u32
    } else {
        0
    }
}

/// Returns the number of steps before the next place passes.
fn steps_between(angle: Option<u32>) -> u32
    ensures { result ≡ steps_between angle }
{
    match angle {
        None => 0,
        Some(angle) => PLACE_TIME - 1 - angle % PLACE_TIME,
    }
}

/// Returns the number of steps before the beginning of a sector passes.
fn steps_before(angle: Option<u32>, sector: u8) -> u32
    ensures { result ≡ steps_before angle sector }
{
    let place = PLACE_TIME * (SECTOR_PLACES * u32::from(sector));
    match angle {
        None => 0,
        Some(angle) => {
            if place < TURN_TIME {
                (place + (TURN_TIME - 1) - angle % TURN_TIME) % TURN_TIME
            } else {
                u32::MAX
            }
        }
    }
}

impl Command {
    /// Returns the command `n` quiet steps later.
    fn later(self, n: u64) -> Command
        ensures { result ≡ command_later n self }
    {
        match self {
            Command::Moving(motion, left) => Command::Moving(motion, less(left, n)),
            Command::Settling(transfer, left) => Command::Settling(transfer, less(left, n)),
            Command::Searching(transfer, left) => Command::Searching(transfer, less(left, n)),
            Command::SeekingAddress(target, left) => Command::SeekingAddress(target, less(left, n)),
            Command::Idle
            | Command::Transferring(..)
            | Command::GivingAddress(..)
            | Command::Refusing => self,
        }
    }

    /// Returns the motor's time `n` quiet steps later.
    fn motor_later(self, n: u64, motor: u32) -> u32
        ensures { result ≡ motor_later n self motor }
    {
        if self.is_busy() {
            motor
        } else {
            less(motor, n)
        }
    }

    /// Returns a number of quiet steps.
    fn quiet_steps(self, angle: Option<u32>, sector: u8) -> u32
        ensures { result ≡ quiet_steps self angle sector }
    {
        match self {
            Command::Idle => u32::MAX,
            Command::Moving(_, left) | Command::Settling(_, left) => left.saturating_sub(1),
            Command::Searching(_, left) => left.saturating_sub(1).min(steps_before(angle, sector)),
            Command::SeekingAddress(_, left) => left.saturating_sub(1).min(steps_between(angle)),
            Command::Transferring(..) | Command::GivingAddress(..) => steps_between(angle),
            Command::Refusing => 0,
        }
    }
}

impl Controller {
    /// Does `n` quiet steps.
    pub(crate) fn pass(&mut self, n: u64)
        ensures { self.new ≡ later n self.old }
    {
        self.angle = angle_later(n, self.angle);
        self.motor = self.command.motor_later(n, self.motor);
        self.command = self.command.later(n);
    }

    /// Returns a number of quiet steps that come next.
    pub(crate) fn quiet_steps(&self) -> u32
        ensures { result ≡ quiet_steps (self.now).command (self.now).angle (self.now).sector }
    {
        self.command.quiet_steps(self.angle, self.sector)
    }
}
