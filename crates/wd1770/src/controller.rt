//! The controller with its drives, one step at a time.
ghost use Rattle.std.specs.Prelude.{◌≡◌, ◌≤◌, ◌<◌, ◌==◌, if◌then◌else◌, nat_lt, None, Some, MatchOption};
ghost use Rattle.wd1770.specs.State.{power_on};
ghost use Rattle.wd1770.specs.Select.{drive_of, with_drive, disc_in, head_selected, target_selected, disc_of};
ghost use Rattle.wd1770.specs.Ends.{is_busy, is_motor_on, end_leaves, finish_leaves, not_found, is_asking, count_leaves};
ghost use Rattle.wd1770.specs.Sectors.{is_on_disc, byte_on_disc};
ghost use Rattle.wd1770.specs.Commands.{command_of, begin_leaves, force_leaves, command_written, stop_leaves, latch_leaves};
ghost use Rattle.wd1770.specs.Registers.{weight, angle_shown, status, answer_of, register_read, register_written, read_leaves, write_leaves};
ghost use Rattle.wd1770.specs.Step.{next_angle, command_step, work_leaves, step};
ghost use Rattle.wd1770.specs.CodeQuiet.{angle_later, later};

use crate::command::Command;
use crate::drive::{Drive, DriveNumber, Target, drive_or_0, drive_selected, side_selected};
use crate::lapse::angle_later;
use beeb_bits::bit;
use disc_image::Disc;
use std::marker::Model;

/// The microseconds of a turn of the discs.
pub(crate) const TURN_TIME: u32 = 200_000;

/// The angle where the index pulse ends.
const INDEX_END: u32 = 4_000;

/// The microseconds for which the motor stays on after a command's end.
const MOTOR_TIME: u32 = 2_000_000;

/// A WD1770 with drives 0 and 1, with all its steps done.
#[derive(Drop)]
pub(crate) struct Controller {
    pub(crate) track: u8,
    pub(crate) sector: u8,
    pub(crate) byte: u8,
    pub(crate) latch: u8,
    // The angle of the discs at the last step; none before the first.
    pub(crate) angle: Option<u32>,
    pub(crate) drive0: Drive,
    pub(crate) drive1: Drive,
    pub(crate) command: Command,
    // The last step of a head was inward.
    pub(crate) last_inward: bool,
    // The status is that of a type I command.
    pub(crate) type_one: bool,
    pub(crate) record_not_found: bool,
    pub(crate) lost_data: bool,
    // The data request, DRQ, and the interrupt request, INTRQ.
    pub(crate) drq: bool,
    pub(crate) intrq: bool,
    // If no command is in progress, the number of steps before the motor goes off.
    pub(crate) motor: u32,
    pub(crate) nmis: u64,
}

impl Model for Controller {
    ghost use Rattle.wd1770.specs.State.{State};

    ghost Value = { State };

    ghost view = { λ f. record {
      track = f.track;
      sector = f.sector;
      byte = f.byte;
      latch = f.latch;
      angle = f.angle;
      drive0 = f.drive0;
      drive1 = f.drive1;
      command = f.command;
      last_inward = f.last_inward;
      type_one = f.type_one;
      record_not_found = f.record_not_found;
      lost_data = f.lost_data;
      drq = f.drq;
      intrq = f.intrq;
      motor = f.motor;
      nmis = f.nmis;
    } };
}

/// Returns the weight of a set bit, otherwise 0.
fn weight(n: u8, is_set: bool) -> u8
    ensures value { result ≡ weight n is_set }
    ensures bound { result ≤ n }
{
    if is_set { n } else { 0 }
}

/// Returns the angle of the next step.
pub(crate) fn next_angle(angle: Option<u32>) -> u32
    ensures value { result ≡ next_angle angle }
    ensures bound { result < TURN_TIME }
{
    match angle {
        None => 0,
        Some(angle) => ((u64::from(angle) + 1) % u64::from(TURN_TIME)) as u32,
    }
}

/// Returns the angle that the status shows: 0 before the first step.
fn angle_shown(angle: Option<u32>) -> u32
    ensures { result ≡ angle_shown angle }
{
    match angle {
        None => 0,
        Some(angle) => angle,
    }
}

impl Controller {
    /// Returns the controller at power-on with the discs of drives 0 and 1. Its latch is 00, which
    /// is a reset, and both heads are at track 0.
    pub(crate) fn new(d0: Option<Disc>, d1: Option<Disc>) -> Controller
        ensures { result ≡ power_on d0 d1 }
    {
        Controller {
            track: 0,
            sector: 0,
            byte: 0,
            latch: 0,
            angle: None,
            drive0: Drive { head: 0, disc: d0 },
            drive1: Drive { head: 0, disc: d1 },
            command: Command::Idle,
            last_inward: true,
            type_one: true,
            record_not_found: false,
            lost_data: false,
            drq: false,
            intrq: false,
            motor: 0,
            nmis: 0,
        }
    }

    /// Writes the disc latch: bit 0 selects drive 0, 1 drive 1, 2 side 1, 3 single density. Bit 5
    /// clear is a reset.
    pub(crate) fn latch(&mut self, v: u8)
        ensures { self.new ≡ latch_leaves v self.old }
    {
        self.latch = v;
        if !bit(v, 5) {
            self.stop();
        }
    }

    // Resets the controller: ends the command and clears DRQ and INTRQ.
    fn stop(&mut self)
        ensures { self.new ≡ stop_leaves self.old }
    {
        if self.command.is_busy() {
            self.end();
        }
        self.drq = false;
        self.intrq = false;
    }

    /// Reads a register as it is `n` quiet steps later. The read changes the controller without
    /// doing the steps.
    pub(crate) fn read(&mut self, reg: u8, n: u32) -> u8
        requires { reg < 4 }
        ensures answer { result ≡ answer_of reg (later n self.old) }
        ensures state { self.new ≡ read_leaves reg self.old }
    {
        let before = self.is_asking();
        let answer = self.answer(reg, n);
        self.clear_read(reg);
        self.count(before);
        answer
    }

    fn answer(&self, reg: u8, n: u32) -> u8
        requires { reg < 4 }
        ensures { result ≡ answer_of reg (later n self.now) }
    {
        match reg {
            0 => self.status(n),
            1 => self.track,
            2 => self.sector,
            _ => self.byte,
        }
    }

    fn clear_read(&mut self, reg: u8)
        requires { reg < 4 }
        ensures { self.new ≡ register_read reg self.old }
    {
        match reg {
            0 => self.intrq = false,
            3 => self.drq = false,
            _ => {}
        }
    }

    fn status(&self, n: u32) -> u8
        ensures { result ≡ status (later n self.now) }
    {
        let motor = self.is_motor_on(n);
        let (bit_2, bit_1) = self.status_by_type(n);
        weight(128, motor)
            + weight(32, self.type_one && motor)
            + weight(16, self.record_not_found)
            + weight(4, bit_2)
            + weight(2, bit_1)
            + weight(1, self.command.is_busy())
    }

    // Returns status bits 2 and 1: track 0 and the index after type I, otherwise lost data and DRQ.
    fn status_by_type(&self, n: u32) -> (bool, bool)
        ensures track_0 { result.0 ≡ (if self.now.type_one then head_selected self.now == 0 else self.now.lost_data) }
        ensures index { result.1 ≡ (if self.now.type_one then nat_lt (angle_shown (angle_later n self.now.angle)) 4000 else self.now.drq) }
    {
        if self.type_one {
            (
                self.head_selected() == 0,
                angle_shown(angle_later(u64::from(n), self.angle)) < INDEX_END,
            )
        } else {
            (self.lost_data, self.drq)
        }
    }

    /// Reports if a command is in progress.
    pub(crate) fn is_busy(&self) -> bool
        ensures { result ≡ is_busy (self.now).command }
    {
        self.command.is_busy()
    }

    // Reports if the motor line, MO, is on `n` quiet steps later. A WD1770 has no head-load line
    // (HLD).
    fn is_motor_on(&self, n: u32) -> bool
        ensures { result ≡ is_motor_on (later n self.now) }
    {
        self.command.is_busy() || self.motor > n
    }

    /// Writes a register: 0 is the command, 1 the track, 2 the sector, 3 the data register. A write
    /// of data clears DRQ.
    pub(crate) fn write(&mut self, reg: u8, v: u8)
        requires { reg < 4 }
        ensures { self.new ≡ write_leaves reg v self.old }
    {
        let before = self.is_asking();
        self.put_register(reg, v);
        self.count(before);
    }

    fn put_register(&mut self, reg: u8, v: u8)
        requires { reg < 4 }
        ensures { self.new ≡ register_written reg v self.old }
    {
        match reg {
            0 => self.write_command(v),
            1 => self.track = v,
            2 => self.sector = v,
            _ => {
                self.byte = v;
                self.drq = false;
            }
        }
    }

    // Writes a command. All are ignored in reset, and all except force interrupt while busy.
    fn write_command(&mut self, v: u8)
        ensures { self.new ≡ command_written v self.old }
    {
        if !bit(self.latch, 5) {
            return;
        }
        if v / 16 == 0xd {
            self.force(v);
        } else if !self.command.is_busy() {
            self.begin(v);
        }
    }

    fn begin(&mut self, v: u8)
        ensures { self.new ≡ begin_leaves v self.old }
    {
        self.command = self.command_of(v);
        self.type_one = v < 0x80;
        self.record_not_found = false;
        self.lost_data = false;
        self.drq = false;
        self.intrq = false;
    }

    fn command_of(&self, v: u8) -> Command
        ensures { result ≡ command_of v self.now }
    {
        if v < 0x80 {
            self.motion_of(v)
        } else if v < 0xc0 {
            self.sectors_of(v)
        } else if v < 0xd0 {
            self.address_of()
        } else {
            Command::Refusing
        }
    }

    // Does a force interrupt command.
    fn force(&mut self, v: u8)
        ensures { self.new ≡ force_leaves v self.old }
    {
        self.type_one = self.type_one || !self.command.is_busy();
        self.record_not_found = false;
        self.lost_data = false;
        self.drq = false;
        self.intrq = bit(v, 3);
        self.end();
    }

    /// Does one step of a microsecond.
    pub(crate) fn step(&mut self)
        ensures { self.new ≡ step self.old }
    {
        let before = self.is_asking();
        self.work();
        self.count(before);
    }

    fn work(&mut self)
        ensures { self.new ≡ work_leaves self.old }
    {
        let angle = next_angle(self.angle);
        self.angle = Some(angle);
        self.step_command(self.command, angle);
    }

    fn step_command(&mut self, command: Command, angle: u32)
        requires { angle < TURN_TIME }
        ensures { self.new ≡ command_step command angle self.old }
    {
        match command {
            Command::Idle => self.motor = self.motor.saturating_sub(1),
            Command::Moving(motion, left) => self.step_motion(motion, left),
            Command::Settling(transfer, left) => self.step_settling(transfer, left),
            Command::Searching(transfer, left) => self.step_search(transfer, left, angle),
            Command::Transferring(transfer, sector) => self.step_transfer(transfer, sector, angle),
            Command::SeekingAddress(target, left) => self.step_address_search(target, left, angle),
            Command::GivingAddress(target, sector) => self.step_address(target, sector, angle),
            Command::Refusing => self.finish_not_found(),
        }
    }

    /// Returns the disc in drive 0 or 1. Returns `None` if the drive has none, and for any other
    /// number.
    pub(crate) fn disc(&self, drive: u8) -> Option<&Disc>
        ensures { MatchOption result (disc_of drive self.now ≡ None) (λ disc. disc_of drive self.now ≡ Some disc.now) }
    {
        match drive {
            0 => self.drive0.disc.as_ref(),
            1 => self.drive1.disc.as_ref(),
            _ => None,
        }
    }

    fn is_asking(&self) -> bool
        ensures { result ≡ is_asking self.now }
    {
        self.drq || self.intrq
    }

    // Counts a rise of "DRQ or INTRQ", whose level was `before`.
    fn count(&mut self, before: bool)
        ensures { self.new ≡ count_leaves before self.old }
    {
        if (self.drq || self.intrq) && !before {
            self.nmis = self.nmis.wrapping_add(1);
        }
    }

    // Ends a command.
    fn end(&mut self)
        ensures { self.new ≡ end_leaves self.old }
    {
        self.command = Command::Idle;
        self.motor = MOTOR_TIME;
    }

    /// Ends a command with INTRQ.
    pub(crate) fn finish(&mut self)
        ensures { self.new ≡ finish_leaves self.old }
    {
        self.end();
        self.intrq = true;
    }

    /// Ends a command that found no sector.
    pub(crate) fn finish_not_found(&mut self)
        ensures { self.new ≡ not_found self.old }
    {
        self.record_not_found = true;
        self.finish();
    }

    /// Returns the track of a drive's head.
    pub(crate) fn head_of(&self, number: DriveNumber) -> u8
        ensures { result ≡ (drive_of number self.now).head }
    {
        match number {
            DriveNumber::Drive0 => self.drive0.head,
            DriveNumber::Drive1 => self.drive1.head,
        }
    }

    pub(crate) fn move_head(&mut self, number: DriveNumber, head: u8)
        ensures { self.new ≡ with_drive number (record (drive_of number self.old) { head = head }) self.old }
    {
        match number {
            DriveNumber::Drive0 => self.drive0.head = head,
            DriveNumber::Drive1 => self.drive1.head = head,
        }
    }

    /// Returns the track of the selected head.
    pub(crate) fn head_selected(&self) -> u8
        ensures { result ≡ head_selected self.now }
    {
        self.head_of(drive_or_0(drive_selected(self.latch)))
    }

    /// Returns the target of a command that is written now.
    pub(crate) fn target_selected(&self) -> Target
        ensures { result ≡ target_selected self.now }
    {
        Target {
            drive: drive_selected(self.latch),
            side: side_selected(self.latch),
            head: self.head_selected(),
        }
    }

    /// Reports if the disc of a command has `sector`.
    pub(crate) fn has(&self, target: Target, sector: u8) -> bool
        ensures { result ≡ is_on_disc (disc_in target.drive self.now) target sector }
    {
        match target.drive {
            None => false,
            Some(DriveNumber::Drive0) => self.drive0.has(target, sector),
            Some(DriveNumber::Drive1) => self.drive1.has(target, sector),
        }
    }

    /// Returns a byte of a sector on the disc of a command.
    pub(crate) fn disc_byte(&self, target: Target, sector: u8, at: u8) -> u8
        ensures { result ≡ byte_on_disc (disc_in target.drive self.now) target sector at }
    {
        match target.drive {
            None => 0,
            Some(DriveNumber::Drive0) => self.drive0.byte(target, sector, at),
            Some(DriveNumber::Drive1) => self.drive1.byte(target, sector, at),
        }
    }
}
