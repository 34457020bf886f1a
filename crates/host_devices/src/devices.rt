//! The devices that advance by microseconds, and their wiring.
ghost use Rattle.std.specs.Prelude.{◌≡◌, ◌≤◌, ◌<◌, ◌+◌, ◌%◌, ◌^◌, ◌==◌, ℕ, Bool, true, false, List, None, Some, MatchOption, IfOk, IfSome, length, slice_set, if◌then◌else◌};
ghost use Rattle.saa5050.specs.Shapes.{Font};
ghost use Rattle.adc7002.specs.Step.{step};
ghost use Rattle.via6522.specs.declared.Pins.{Pins};
ghost use Rattle.raster.specs.Clock.{vsync_of};
ghost use Rattle.raster.specs.Reads.{ReadsFrom};
ghost use Rattle.wd1770.specs.Select.{disc_of};
ghost use Rattle.keyboard.specs.Keys.{keys_of};
ghost use Rattle.keyboard.specs.Latch.{screen_size};
ghost use Rattle.host_devices.specs.Apart.{AreCalm};
ghost use Rattle.host_devices.specs.CodePicture.{drawn};
ghost use Rattle.host_devices.specs.Devices.{system_pins, raster_after, microsecond, last_frame, microseconds, register_answer, holds_still, register_read, register_written};
ghost use Rattle.host_devices.specs.Devices.{after_latch, sound_line, sound_data, devices_ask, devices_reset, first_devices};

use crate::law::devices_go_on_apart;
use crate::map::Device;
use adc7002::Adc;
use beeb_bits::NoMemory;
use disc_image::Disc;
use keyboard::{Keys, Latch};
use raster::{Frame, Raster, reads_go_on, stores_below_are_unseen, sync_stays_on};
use saa5050::GlyphTable;
use std::alloc::Global;
use std::marker::Model;
use via6522::{Pins, Via};
use wd1770::Fdc;

/// The pins of the user's 6522.
const USER_PINS: Pins = Pins {
    a: 0xff,
    b: 0xff,
    ca1: true,
    ca2: true,
    cb1: true,
    cb2: true,
};

/// The picture, the disc controller, the converter, the two 6522s, and the addressable latch at the
/// system's. The picture lags the others. It catches up before a line may change, and before a
/// change of a register or a byte of the RAM that it reads.
#[derive(Drop)]
pub struct Devices {
    video: Raster,
    disc: Fdc,
    latch: Latch,
    // The size of the screen by the latch, which each microsecond uses.
    size: u16,
    converter: Adc,
    system: Via,
    user: Via,
    // The microseconds that the other devices have done and the picture has not.
    owed: u64,
    // The number of further microseconds during which vertical sync and the converter's line do not
    // change.
    steady: u64,
    // The picture reads no byte of the RAM below this address.
    lowest: u16,
}

impl Model for Devices {
    ghost use Rattle.host_devices.specs.CodePicture.{Behind};
    ghost use Rattle.host_devices.specs.CodeDevices.{AreInStep, behind};

    ghost Value = { Behind };

    ghost view = { behind };

    ghost invariant = { AreInStep };
}

impl Devices {
    /// Makes the devices at power-on, with the discs of both drives.
    #[tactic(auto, unfolding(crate::specs::Devices::first_devices))]
    pub fn make(alloc: Global, d0: Option<Disc>, d1: Option<Disc>) -> Result<Devices, NoMemory>
        ensures { IfOk result (λ d. d ≡ record { devices = first_devices d0 d1; owed = 0 }) }
    {
        let video = Raster::make(alloc)?;
        let latch = Latch::new();
        Ok(Devices {
            video,
            disc: Fdc::new(d0, d1),
            latch,
            size: latch.screen_size(),
            converter: Adc::new(),
            system: Via::new(),
            user: Via::new(),
            owed: 0,
            steady: 0,
            lowest: 0,
        })
    }

    // Returns the pins of the system's 6522, if the converter's line has the level `cb1`. CA1 is
    // vertical sync.
    #[inline(always)]
    fn system_pins(&self, cb1: bool, keys: &Keys) -> Pins
        ensures { let d = (self.now).devices in
            result ≡ system_pins (vsync_of d.video) cb1 (keys_of keys.now) d }
    {
        let port_a = self.system.out_a();
        Pins {
            a: if keys.port_a_bit_7(&self.latch, port_a) {
                0xff
            } else {
                0x7f
            },
            b: 0xff,
            ca1: self.video.vsync(),
            ca2: keys.ca2(&self.latch, port_a),
            cb1,
            cb2: true,
        }
    }

    /// Draws what the picture owes.
    #[inline(never)]
    pub fn draw(&mut self, ram: &[u8], glyphs: &GlyphTable)
        requires { length ram.now ≡ 32768 }
        ensures { self.new ≡ record { devices = drawn ram.now glyphs.now.font self.old; owed = 0 } }
    {
        sync_stays_on();
        reads_go_on();
        self.video.advance(ram, self.size, glyphs, self.owed);
        self.owed = 0;
    }

    /// Draws what the picture owes, if it may read the byte at `at`. The byte may then be written.
    #[inline(always)]
    pub fn draw_before_store(&mut self, ram: &[u8], glyphs: &GlyphTable, at: u16)
        requires { length ram.now ≡ 32768 }
        ensures { let font = glyphs.now.font in
            (v : ℕ) → drawn (slice_set ram.now at v) font self.new ≡ drawn ram.now font self.old }
    {
        stores_below_are_unseen();
        if at >= self.lowest {
            self.draw(ram, glyphs);
        }
    }

    // Does one microsecond of a picture that owes nothing. Vertical sync may change.
    #[inline(always)]
    #[tactic(auto, using(crate::proofs::Steady::nothing_owed, crate::proofs::Steady::no_step))]
    fn show(&mut self, ram: &[u8], glyphs: &GlyphTable)
        requires ram { length ram.now ≡ 32768 }
        requires drawn { (self.old).owed ≡ 0 }
        ensures { let old = (self.old).devices in
            self.new ≡ record self.old { devices = record old { video = raster_after ram.now glyphs.now.font old } } }
    {
        self.steady = 0;
        self.lowest = 0;
        self.video.advance(ram, self.size, glyphs, 1);
    }

    // Does one microsecond of the converter. Its line may change.
    #[inline(always)]
    #[tactic(auto, using(crate::proofs::Steady::one_step, crate::proofs::Steady::nothing_owed, crate::proofs::Steady::no_step))]
    fn convert(&mut self, levels: [u16; 4])
        requires drawn { (self.old).owed ≡ 0 }
        ensures { let old = (self.old).devices in
            self.new ≡ record self.old { devices = record old { converter = step levels old.converter } } }
    {
        self.steady = 0;
        self.converter.advance(levels, 1);
    }

    // Computes for how long vertical sync and the converter's line do not change, and the lowest
    // address that the picture reads.
    fn look_ahead(&mut self)
        requires drawn { (self.old).owed ≡ 0 }
        ensures { self.new ≡ self.old }
    {
        self.steady = self.video.calm().min(self.converter.calm());
        self.lowest = self.video.lowest(self.size);
    }

    // Does a microsecond. A line between two devices may change.
    #[inline(never)]
    #[tactic(auto, unfolding(crate::specs::Devices::microsecond))]
    fn step(&mut self, ram: &[u8], glyphs: &GlyphTable, keys: &Keys, levels: [u16; 4])
        requires { length ram.now ≡ 32768 }
        ensures { let see = drawn ram.now glyphs.now.font in
            see self.new ≡ microsecond ram.now glyphs.now.font (keys_of keys.now) levels (see self.old) }
    {
        self.draw(ram, glyphs);
        self.show(ram, glyphs);
        self.disc.step();
        self.convert(levels);
        let line = self.converter.cb1();
        let pins = self.system_pins(line, keys);
        self.system.step(pins);
        self.user.step(USER_PINS);
        self.look_ahead();
    }

    // Does some of `n` microseconds, and returns the number that is left. While the lines between
    // the devices do not change, each device does many by itself, and the picture owes them.
    // Otherwise one is done.
    fn some_microseconds(
        &mut self,
        ram: &[u8],
        glyphs: &GlyphTable,
        keys: &Keys,
        levels: [u16; 4],
        n: u64,
    ) -> u64
        requires ram { length ram.now ≡ 32768 }
        requires some { 0 < n }
        ensures fewer { result < n }
        ensures rest { let see = drawn ram.now glyphs.now.font in
            let after = microseconds ram.now glyphs.now.font (keys_of keys.now) levels in
            after result (see self.new) ≡ after n (see self.old) }
    {
        if self.steady == 0 {
            self.step(ram, glyphs, keys, levels);
            return n - 1;
        }
        devices_go_on_apart();
        sync_stays_on();
        let steps = n.min(self.steady);
        let pins = self.system_pins(self.converter.cb1(), keys);
        self.owed += steps;
        self.disc.advance(steps);
        self.converter.advance(levels, steps);
        self.system.advance(pins, steps);
        self.user.advance(USER_PINS, steps);
        self.steady -= steps;
        n - steps
    }

    /// Does `n` microseconds, with unchanged RAM, keys and levels of the converter's channels.
    pub fn advance(
        &mut self,
        ram: &[u8],
        glyphs: &GlyphTable,
        keys: &Keys,
        levels: [u16; 4],
        n: u64,
    )
        requires { length ram.now ≡ 32768 }
        ensures { let see = drawn ram.now glyphs.now.font in
            see self.new ≡ microseconds ram.now glyphs.now.font (keys_of keys.now) levels n (see self.old) }
    {
        let mut left = n;
        while left > 0 {
            left = self.some_microseconds(ram, glyphs, keys, levels, left);
        }
    }

    /// Returns a number of microseconds during which the lines to the processor do not change if
    /// the keys do not.
    pub fn calm(&self, keys: &Keys) -> u64
        ensures { (ram : List ℕ) (font : Font) → AreCalm (keys_of keys.now) result (drawn ram font self.now) }
    {
        let pins = self.system_pins(self.converter.cb1(), keys);
        devices_go_on_apart();
        sync_stays_on();
        let chips = self.disc.calm().min(self.user.calm(USER_PINS));
        chips.min(self.system.calm(pins)).min(self.steady)
    }

    /// Returns a RAM address. The picture reads no byte below it, until a register is written.
    #[inline(always)]
    pub fn lowest(&self) -> u16
        ensures { ReadsFrom result (screen_size (self.now).devices.latch) (self.now).devices.video }
    {
        self.lowest
    }

    /// Returns the last finished frame, or a black one, up to where the picture is drawn.
    #[tactic(auto, unfolding(crate::specs::Devices::last_frame))]
    pub fn last_frame(&self) -> &Frame
        ensures { result.now ≡ last_frame (self.now).devices }
    {
        self.video.frame()
    }

    /// Reads a register in SHEILA.
    #[tactic(auto, unfolding(crate::specs::Devices::register_answer, crate::specs::Devices::register_read), using(crate::proofs::Steady::nothing_owed))]
    pub fn read(
        &mut self,
        ram: &[u8],
        glyphs: &GlyphTable,
        keys: &Keys,
        device: Device,
        at: u16,
    ) -> u8
        requires { length ram.now ≡ 32768 }
        ensures answer { result ≡ register_answer device at (keys_of keys.now) (drawn ram.now glyphs.now.font self.old) }
        ensures after { let see = drawn ram.now glyphs.now.font in
            see self.new ≡ register_read device at (see self.old) }
    {
        match device {
            Device::Crtc => {
                self.draw(ram, glyphs);
                self.steady = 0;
                self.lowest = 0;
                if at % 2 == 0 {
                    0xfe
                } else {
                    self.video.crtc().get()
                }
            }
            Device::Acia => { if at % 2 == 0 { 0x02 } else { 0x00 } }
            Device::SystemVia => {
                let pins = self.system_pins(self.converter.cb1(), keys);
                self.system.read((at % 16) as u8, pins)
            }
            Device::UserVia => self.user.read((at % 16) as u8, USER_PINS),
            Device::DiscController => self.disc.read((at % 4) as u8),
            Device::Adc => self.converter.read((at % 4) as u8),
            _ => 0xfe,
        }
    }

    /// Returns the byte of a 6522's register that does not depend on pins and that a read does not
    /// change. Returns `None` for any other.
    #[inline(always)]
    #[tactic(auto, unfolding(crate::specs::Devices::register_answer, crate::specs::Devices::register_read))]
    pub fn held(&self, device: Device, at: u16) -> Option<u8>
        ensures answer { IfSome result (λ byte. (ram : List ℕ) (font : Font) (keys : ℕ → Bool) →
            byte ≡ register_answer device at keys (drawn ram font self.now)) }
        ensures after { IfSome result (λ byte. (ram : List ℕ) (font : Font) →
            register_read device at (drawn ram font self.now) ≡ drawn ram font self.now) }
        ensures which { MatchOption result (holds_still device at ≡ false) (λ byte. holds_still device at ≡ true) }
    {
        let via = match device {
            Device::SystemVia => &self.system,
            Device::UserVia => &self.user,
            _ => return None,
        };
        let reg = (at % 16) as u8;
        if reg < 11 || reg == 15 {
            None
        } else {
            Some(via.held(reg))
        }
    }

    /// Writes a register in SHEILA.
    #[tactic(auto, unfolding(crate::specs::Devices::register_written), using(crate::proofs::Steady::nothing_owed))]
    pub fn write(&mut self, ram: &[u8], glyphs: &GlyphTable, device: Device, at: u16, v: u8)
        requires { length ram.now ≡ 32768 }
        ensures { let see = drawn ram.now glyphs.now.font in
            see self.new ≡ register_written device at v (see self.old) }
    {
        match device {
            Device::Crtc => {
                self.draw(ram, glyphs);
                self.steady = 0;
                self.lowest = 0;
                if at % 2 == 0 {
                    self.video.crtc().select(v);
                } else {
                    self.video.crtc().set(v);
                }
            }
            Device::VideoUla => {
                self.draw(ram, glyphs);
                self.steady = 0;
                self.lowest = 0;
                if at % 2 == 0 {
                    self.video.ula().control(v);
                } else {
                    self.video.ula().palette(v);
                }
            }
            Device::SystemVia => {
                self.system.write((at % 16) as u8, v);
                self.latch_port_b(ram, glyphs, (at % 16) as u8);
            }
            Device::UserVia => self.user.write((at % 16) as u8, v),
            Device::DiscLatch => self.disc.latch(v),
            Device::DiscController => self.disc.write((at % 4) as u8, v),
            Device::Adc => {
                self.steady = 0;
                self.converter.write((at % 4) as u8, v);
            }
            _ => {}
        }
    }

    // Puts the pins of port B into the addressable latch, if register 0 or 2 was written. The size
    // of the screen may change.
    #[tactic(auto, unfolding(crate::specs::Devices::after_latch))]
    fn latch_port_b(&mut self, ram: &[u8], glyphs: &GlyphTable, reg: u8)
        requires { length ram.now ≡ 32768 }
        ensures { let see = drawn ram.now glyphs.now.font in
            see self.new ≡ after_latch reg (see self.old) }
    {
        if reg == 0 || reg == 2 {
            self.draw(ram, glyphs);
            self.latch.write(self.system.out_b());
            self.size = self.latch.screen_size();
            self.lowest = self.video.lowest(self.size);
        }
    }

    /// Returns the level of the sound chip's write line, bit 0 of the addressable latch. It is
    /// active low.
    #[tactic(auto, unfolding(crate::specs::Devices::sound_line))]
    pub fn sound_line(&self) -> bool
        ensures { result ≡ sound_line (self.now).devices }
    {
        self.latch.bits[0]
    }

    /// Returns the data of the sound chip: the pins of port A of the system's 6522.
    #[tactic(auto, unfolding(crate::specs::Devices::sound_data))]
    pub fn sound_data(&self) -> u8
        ensures { result ≡ sound_data (self.now).devices }
    {
        self.system.out_a()
    }

    /// Does BREAK: writes 00 to the disc latch, and resets the user's 6522 to its power-on state.
    #[tactic(auto, unfolding(crate::specs::Devices::devices_reset))]
    pub fn reset(&mut self)
        ensures { self.new ≡ record self.old { devices = devices_reset (self.old).devices } }
    {
        self.disc.latch(0);
        self.user = Via::new();
    }

    /// Returns the disc in a drive. Returns `None` if there is none.
    pub fn disc(&self, drive: u8) -> Option<&Disc>
        ensures { let there = disc_of drive (self.now).devices.disc in
            MatchOption result (there ≡ None) (λ disc. there ≡ Some disc.now) }
    {
        self.disc.disc(drive)
    }

    /// Returns the number of rises of the disc controller's "DRQ or INTRQ".
    #[inline(always)]
    pub fn nmis(&self) -> u64
        ensures { result ≡ (self.now).devices.disc.nmis }
    {
        self.disc.nmis()
    }

    /// Reports if one of both 6522s requests an interrupt.
    #[inline(always)]
    #[tactic(auto, unfolding(crate::specs::Devices::devices_ask))]
    pub fn ask(&self) -> bool
        ensures { result ≡ devices_ask (self.now).devices }
    {
        self.system.irq() || self.user.irq()
    }
}
