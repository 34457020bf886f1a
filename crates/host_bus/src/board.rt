//! The board: memory and devices, without the plugged devices.
ghost use Rattle.std.specs.Prelude.{◌≡◌, ◌≤◌, ◌<◌, ◌+◌, ◌-◌, ◌*◌, ◌%◌, ◌^◌, ◌==◌, ◌⊎◌, ℕ, true, false, min, unwrap_or, length, List, IfOk, Ok};
ghost use Rattle.std.specs.Prelude.{IfSome, None, Some, MatchOption, slice_index, slice_set, if◌then◌else◌};
ghost use Rattle.keyboard.specs.Keys.{keys_of};
ghost use Rattle.rom_set.specs.Roms.{rom_byte};
ghost use Rattle.wd1770.specs.Select.{disc_of};
ghost use Rattle.sn76489.specs.Samples.{NeverFallFrom};
ghost use Rattle.host_devices.specs.Map.{place_of};
ghost use Rattle.host_devices.specs.Shots.{shot_at};
ghost use Rattle.host_devices.specs.CodePlayback.{IsPlayed, IsOnTime};
ghost use Rattle.host_devices.specs.declared.map.Device.TheVariants.{SystemVia};
ghost use Rattle.host_devices.specs.Devices.{microsecond, last_frame, register_written};
ghost use Rattle.host_bus.specs.Board.{ticks, board_closed, answer_at, read_at, written_at, with_sound, board_irq, board_nmis, break_pending, break_taken, next_break, first_board, clear_ram};
ghost use Rattle.host_devices.specs.CodePicture.{drawn};
ghost use Rattle.host_bus.specs.CodeReads.{HasBytes, Shows};
ghost use Rattle.host_bus.specs.Lag.{IsCalm, ReadsAbove};
ghost use Rattle.host_bus.specs.CodeBoard.{around_by, moving};
ghost use Rattle.beeb_bits.specs.Clock.{micro};

use beeb_bits::{Clock, NoMemory, Tick, zeroed};
use disc_image::Disc;
use host_devices::{Breaks, Device, Devices, Playback, SoundLog, device_at};
use key_script::Script;
use raster::{Frame, reads_go_on};
use rom_set::RomSet;
use saa5050::GlyphTable;
use sn76489::SoundWrite;
use std::alloc::Global;
use std::marker::Model;

/// The bytes of the RAM.
const RAM_SIZE: usize = 32_768;

/// The number of addresses.
const ADDRESSES: usize = 65_536;

/// The first address of the operating system.
const OS_START: usize = 0xc000;

/// The first address of the paged ROM.
const PAGED_START: usize = 0x8000;

/// The bytes of half a slot.
const HALF_SLOT: usize = 8_192;

/// The bytes of the operating system.
const OS_SIZE: u16 = 16_384;

/// All of the host's bus except the plugged devices. Every tick below `closed` is done.
#[derive(Drop)]
pub(crate) struct Board {
    clock: Clock,
    ram: Vec<u8>,
    // The bytes that reads show of the RAM, the paged ROM and the operating system: a read takes
    // one load.
    shown: Vec<u8>,
    glyphs: GlyphTable,
    latch: u8,
    devices: Devices,
    playback: Playback,
    breaks: Breaks,
    sound: SoundLog,
    closed: u64,
    // The tick of the next microsecond or event, the earlier of the two.
    next: u64,
}

impl Model for Board {
    ghost use Rattle.host_bus.specs.Board.{BoardState};
    ghost use Rattle.host_bus.specs.CodeBoard.{board_seen, IsValid};

    ghost Value = { BoardState };

    ghost view = { board_seen };

    ghost invariant = { IsValid };
}

// Copies the operating system to the array for reads.
fn cover(shown: &mut [u8], roms: &RomSet)
    requires { length shown.old ≡ ADDRESSES }
    ensures length { length shown.new ≡ ADDRESSES }
    ensures covered { HasBytes shown.old OS_START OS_SIZE (λ at. slice_index roms.now.os (at - OS_START)) shown.new }
{
    for i in 0..OS_SIZE {
        shown[OS_START + usize::from(i)] = roms.os(i);
    }
}

// Copies half of a slot, the ROM's bytes from `skip` on, to the array for reads.
fn cover_half(shown: &mut [u8], start: usize, rom: &[u8], skip: usize)
    requires addresses { length shown.old ≡ ADDRESSES }
    requires room { start + HALF_SLOT ≤ ADDRESSES }
    requires half { skip + HALF_SLOT ≤ length rom.now }
    ensures length { length shown.new ≡ ADDRESSES }
    ensures covered { HasBytes shown.old start HALF_SLOT (λ at. slice_index rom.now (skip + (at - start))) shown.new }
{
    shown[start..start + HALF_SLOT].copy_from_slice(&rom[skip..skip + HALF_SLOT]);
}

// Fills the array for reads with FF, for an empty slot.
fn cover_empty(shown: &mut [u8])
    requires { length shown.old ≡ ADDRESSES }
    ensures length { length shown.new ≡ ADDRESSES }
    ensures covered { HasBytes shown.old PAGED_START (2 * HALF_SLOT) (λ at. 0xFF) shown.new }
{
    for i in 0..2 * HALF_SLOT {
        shown[PAGED_START + i] = 0xff;
    }
}

// Copies the ROM of a slot to the array for reads. A ROM of half the size is copied twice.
fn cover_slot(shown: &mut [u8], roms: &RomSet, slot: u8)
    requires addresses { length shown.old ≡ ADDRESSES }
    requires slot { slot < 16 }
    ensures length { length shown.new ≡ ADDRESSES }
    ensures covered { HasBytes shown.old PAGED_START (2 * HALF_SLOT) (λ at. rom_byte roms.now.slots slot (at - PAGED_START)) shown.new }
{
    match roms.rom(slot) {
        Some(rom) => {
            cover_half(shown, PAGED_START, rom, 0);
            cover_half(shown, PAGED_START + HALF_SLOT, rom, rom.len() - HALF_SLOT);
        }
        None => cover_empty(shown),
    }
}

// Copies the ROM of a slot to the array for reads, unless that slot is there already.
fn show_slot(shown: &mut [u8], roms: &RomSet, was: u8, slot: u8)
    requires addresses { length shown.old ≡ ADDRESSES }
    requires slot { slot < 16 }
    ensures length { length shown.new ≡ ADDRESSES }
    ensures shows { (ram : List ℕ) → Shows ram roms.now.slots was roms.now.os shown.old → Shows ram roms.now.slots slot roms.now.os shown.new }
{
    if slot != was {
        cover_slot(shown, roms, slot);
    }
}

// Copies the ROM of slot 0 and the operating system to the array for reads, at power-on.
fn cover_first(shown: &mut [u8], roms: &RomSet)
    requires addresses { length shown.old ≡ ADDRESSES }
    requires clear { (at : ℕ) → slice_index shown.old at ≡ 0 }
    ensures length { length shown.new ≡ ADDRESSES }
    ensures shows { Shows clear_ram roms.now.slots 0 roms.now.os shown.new }
{
    cover(shown, roms);
    cover_slot(shown, roms, 0);
}

// Makes the array for reads at power-on: clear RAM, the ROM of slot 0, and the operating system.
fn first_shown(alloc: Global, roms: &RomSet) -> Result<Vec<u8>, NoMemory>
    ensures length { IfOk result (λ v. length v.items ≡ ADDRESSES) }
    ensures shows { IfOk result (λ v. Shows clear_ram roms.now.slots 0 roms.now.os v.items) }
{
    let mut shown = zeroed(alloc, ADDRESSES)?;
    cover_first(&mut shown, roms);
    Ok(shown)
}

// Makes the RAM, the array for reads, and the images with the letters of their font, at power-on.
fn first_memory(alloc: Global, roms: RomSet) -> Result<(Vec<u8>, Vec<u8>, GlyphTable), NoMemory>
    ensures ram { IfOk result (λ m. m.0.items ≡ clear_ram) }
    ensures memory { IfOk result (λ m. length m.0.items ≡ RAM_SIZE) }
    ensures addresses { IfOk result (λ m. length m.1.items ≡ ADDRESSES) }
    ensures shows { IfOk result (λ m. Shows clear_ram m.2.slots 0 m.2.os m.1.items) }
    ensures glyphs { IfOk result (λ m. m.2 ≡ roms) }
{
    let ram = zeroed(alloc, RAM_SIZE)?;
    let shown = first_shown(alloc, &roms)?;
    let glyphs = GlyphTable::make(alloc, roms)?;
    Ok((ram, shown, glyphs))
}

// Returns both parts, if there was memory for each. It is generic, since a proof follows each field
// of a known type that is dropped.
fn both<A: Drop, B: Drop>(
    a: Result<A, NoMemory>,
    b: Result<B, NoMemory>,
) -> Result<(A, B), NoMemory>
    ensures { IfOk result (λ m. (a ≡ Ok m.0) × (b ≡ Ok m.1)) }
{
    Ok((a?, b?))
}

// Returns the number of microseconds that begin in `span` ticks, if one begins with the first of
// them.
fn microseconds_in(clock: Clock, span: u64) -> u64
    requires { span < 2 ^ 48 }
    ensures all { span ≤ result * micro clock }
    ensures no_more { result * micro clock < span + micro clock }
{
    match clock {
        Clock::Three => span.div_ceil(6),
        Clock::Four => span.div_ceil(12),
    }
}

// Continues at tick `k`, below `t`, with a microsecond or event. Does all microseconds below `t`
// and before the next event, or the events of tick `k`. Returns the tick of the next microsecond or
// event.
#[inline(always)]
fn microseconds_or_events(
    devices: &mut Devices,
    playback: &mut Playback,
    ram: &[u8],
    glyphs: &GlyphTable,
    clock: Clock,
    k: u64,
    t: u64,
) -> u64
    requires ram { length ram.now ≡ RAM_SIZE }
    requires due { k < t }
    requires room { t < 2 ^ 48 }
    requires played { IsPlayed playback.old k }
    requires begins { k < playback.old.event → k % micro clock ≡ 0 }
    ensures on { k < result }
    ensures script { playback.new.script ≡ playback.old.script }
    ensures ticks { let a = around_by clock ram.now glyphs.now.font playback.old.script in
        let see = drawn ram.now glyphs.now.font in
        let old = moving (see devices.old) playback.old.shots.frames in
        moving (see devices.new) playback.new.shots.frames ≡ ticks a (min t result - k) k old }
    ensures played { IsPlayed playback.new (min t result) }
    ensures next { IsOnTime (micro clock) (min t result) playback.new.event result }
{
    if k < playback.event {
        let n = microseconds_in(clock, t.min(playback.event) - k);
        devices.advance(ram, glyphs, &playback.keys, playback.levels, n);
        (k + n * clock.micro()).min(playback.event)
    } else {
        tick_with_events(devices, playback, ram, glyphs, clock, k)
    }
}

// Does tick `k`: takes its shots, and then does its microsecond, if there is one. Returns the tick
// of the next microsecond or event.
#[cold]
#[inline(never)]
fn tick_with_events(
    devices: &mut Devices,
    playback: &mut Playback,
    ram: &[u8],
    glyphs: &GlyphTable,
    clock: Clock,
    k: u64,
) -> u64
    requires ram { length ram.now ≡ RAM_SIZE }
    requires room { k < 2 ^ 48 }
    requires played { IsPlayed playback.old k }
    ensures script { playback.new.script ≡ playback.old.script }
    ensures shots { let frame = last_frame (drawn ram.now glyphs.now.font devices.old) in
        playback.new.shots.frames ≡ shot_at k playback.old.script frame playback.old.shots.frames }
    ensures played { IsPlayed playback.new (k + 1) }
    ensures devices { let keys = keys_of playback.new.keys in
        let old = drawn ram.now glyphs.now.font devices.old in
        let after = microsecond ram.now glyphs.now.font keys playback.new.levels old in
        drawn ram.now glyphs.now.font devices.new ≡ (if k % micro clock == 0 then after else old) }
    ensures next { IsOnTime (micro clock) (k + 1) playback.new.event result }
{
    let micro = clock.micro();
    devices.draw(ram, glyphs);
    playback.play(devices.last_frame(), k);
    if k % micro == 0 {
        devices.advance(ram, glyphs, &playback.keys, playback.levels, 1);
    }
    (k + micro - k % micro).min(playback.event)
}

impl Board {
    /// Makes the board at power-on, by its clock, images, discs of both drives, and script. It
    /// takes the memory of all shots of the script, and of all sound writes.
    pub(crate) fn make(
        alloc: Global,
        clock: Clock,
        roms: RomSet,
        d0: Option<Disc>,
        d1: Option<Disc>,
        script: Script,
    ) -> Result<Board, NoMemory>
        ensures { IfOk result (λ b. b ≡ first_board clock roms d0 d1 script) }
    {
        let kept = both(first_memory(alloc, roms), Playback::make(alloc, script));
        let made = both(SoundLog::make(alloc), Devices::make(alloc, d0, d1));
        let ((memory, playback), (sound, devices)) = both(kept, made)?;
        let breaks = Breaks::new(playback.script.events());
        Ok(Board {
            clock,
            ram: memory.0,
            shown: memory.1,
            glyphs: memory.2,
            latch: 0,
            devices,
            playback,
            breaks,
            sound,
            closed: 0,
            next: 0,
        })
    }

    /// Returns the length of a tick.
    #[inline(always)]
    pub(crate) fn clock(&self) -> Clock
        ensures { result ≡ (self.now).clock }
    {
        self.clock
    }

    /// Does all ticks below `t`. `next` and `closed` are written once, after the loop.
    pub(crate) fn close(&mut self, t: u64)
        requires low { self.old.closed ≤ t }
        requires room { t < 2 ^ 48 }
        ensures { self.new ≡ board_closed self.old t }
    {
        let mut next = self.next;
        while next < t {
            next = microseconds_or_events(
                &mut self.devices,
                &mut self.playback,
                &self.ram,
                &self.glyphs,
                self.clock,
                next,
                t,
            );
        }
        self.next = next;
        self.closed = t;
    }

    /// Returns a tick. Up to it the lines to the processor do not change.
    pub(crate) fn calm(&self) -> u64
        ensures low { self.now.closed ≤ result }
        ensures calm { IsCalm result self.now }
    {
        let ticks = self
            .devices
            .calm(&self.playback.keys)
            .saturating_mul(self.clock.micro());
        self.next.saturating_add(ticks).min(self.playback.event)
    }

    /// Returns a RAM address. The picture reads no byte below it, until a register is written.
    #[inline(always)]
    pub(crate) fn lowest(&self) -> u16
        ensures { ReadsAbove result self.now }
    {
        reads_go_on();
        self.devices.lowest()
    }

    /// Returns a byte of the RAM or of a ROM.
    #[inline(always)]
    pub(crate) fn memory(&self, at: u16) -> u8
        requires { (at < 0xfc00) ⊎ (0xff00 ≤ at) }
        ensures { (t u : ℕ) → result ≡ answer_at (place_of at) (board_closed self.now u) t at }
    {
        self.shown[at as usize]
    }

    /// Writes a byte to the RAM. The picture is drawn first if it may read the byte.
    #[inline(always)]
    pub(crate) fn store(&mut self, at: u16, v: u8)
        requires { at < 0x8000 }
        ensures { self.new ≡ record self.old { ram = slice_set (self.old).ram at v } }
    {
        self.devices.draw_before_store(&self.ram, &self.glyphs, at);
        self.ram[at as usize] = v;
        self.shown[at as usize] = v;
    }

    /// Reads an address in SHEILA at the last tick that is done.
    pub(crate) fn read(&mut self, at: u16) -> u8
        requires low { 0xfe00 ≤ at }
        requires high { at ≤ 0xfeff }
        ensures answer { (t : ℕ) → self.old.closed ≡ t + 1 → result ≡ answer_at (place_of at) self.old t at }
        ensures after { self.new ≡ read_at (place_of at) at self.old }
        ensures closed { (self.new).closed ≡ (self.old).closed }
    {
        let keys = &self.playback.keys;
        self.devices
            .read(&self.ram, &self.glyphs, keys, device_at(at), at)
    }

    /// Returns the byte of a 6522's register that does not depend on pins and that a read does not
    /// change. Returns `None` for any other.
    #[inline(always)]
    pub(crate) fn held(&self, at: u16) -> Option<u8>
        requires low { 0xfe00 ≤ at }
        requires high { at ≤ 0xfeff }
        ensures answer { IfSome result (λ byte. (t : ℕ) → byte ≡ answer_at (place_of at) self.now t at) }
        ensures after { IfSome result (λ byte. read_at (place_of at) at self.now ≡ self.now) }
    {
        self.devices.held(device_at(at), at)
    }

    // Selects a slot. Its ROM is copied to the array for reads, unless it is there already.
    fn latch_slot(&mut self, slot: u8)
        requires { slot < 16 }
        ensures { self.new ≡ record self.old { latch = slot } }
    {
        show_slot(&mut self.shown, self.glyphs.roms(), self.latch, slot);
        self.latch = slot;
    }

    // Writes a register of the system's 6522. The sound chip may be written too.
    #[tactic(auto, unfolding(host_devices::specs::Devices::sound_line, host_devices::specs::Devices::sound_data))]
    fn write_system(&mut self, at: u16, v: u8)
        ensures { self.new ≡ with_sound self.old (register_written SystemVia at v (self.old).devices) }
    {
        let was_high = self.devices.sound_line();
        self.devices
            .write(&self.ram, &self.glyphs, Device::SystemVia, at, v);
        if was_high && !self.devices.sound_line() {
            self.sound.tell(SoundWrite {
                moment: self.closed.div_ceil(self.clock.micro()),
                byte: self.devices.sound_data(),
            });
        }
    }

    /// Writes an address in SHEILA.
    pub(crate) fn write(&mut self, at: u16, v: u8)
        requires low { 0xfe00 ≤ at }
        requires high { at ≤ 0xfeff }
        ensures after { self.new ≡ written_at (place_of at) at v self.old }
        ensures closed { (self.new).closed ≡ (self.old).closed }
    {
        match device_at(at) {
            Device::RomLatch => self.latch_slot(v % 16),
            Device::SystemVia => self.write_system(at, v),
            device => self.devices.write(&self.ram, &self.glyphs, device, at, v),
        }
    }

    /// Reports if a device requests an interrupt.
    #[inline(always)]
    #[tactic(auto, unfolding(host_devices::specs::Devices::devices_ask))]
    pub(crate) fn irq(&self) -> bool
        ensures { result ≡ board_irq self.now }
    {
        self.devices.ask()
    }

    /// Returns the number of rises of the NMI line.
    #[inline(always)]
    pub(crate) fn nmis(&self) -> u64
        ensures { result ≡ board_nmis self.now }
    {
        self.devices.nmis()
    }

    /// Returns the tick of the first break that was not taken, or 2^64 - 1 if none is left. A break
    /// is pending from that tick on, and none before it.
    #[inline(always)]
    pub(crate) fn break_tick(&self) -> u64
        ensures value { result ≡ unwrap_or (next_break self.now) 18446744073709551615 }
        ensures none { (t : ℕ) → t < result → break_pending self.now t ≡ false }
        ensures some { (t : ℕ) → result ≤ t → t < 2 ^ 63 → break_pending self.now t ≡ true }
    {
        self.breaks.next
    }

    /// Returns the tick of the first break that was not taken. Returns `None` if none is left.
    pub(crate) fn next_break(&self) -> Option<Tick>
        ensures { let next = next_break self.now in
            MatchOption result (next ≡ None) (λ t. next ≡ Some t.0) }
    {
        self.breaks.next_tick(self.playback.script.events())
    }

    /// Takes every break up to tick `t`. At least one must be pending. It takes no memory.
    #[tactic(auto, unfolding(host_devices::specs::Devices::devices_reset))]
    pub(crate) fn take_break(&mut self, t: u64)
        requires pending { break_pending self.old t ≡ true }
        requires room { t < 2 ^ 63 }
        ensures { self.new ≡ break_taken self.old t }
    {
        self.breaks.take(self.playback.script.events(), t);
        self.devices.reset();
    }

    /// Returns the disc in a drive. Returns `None` if there is none.
    pub(crate) fn disc(&self, drive: u8) -> Option<&Disc>
        ensures { let there = disc_of drive (self.now).devices.disc in
            MatchOption result (there ≡ None) (λ disc. there ≡ Some disc.now) }
    {
        self.devices.disc(drive)
    }

    /// Returns the frames that shots took, the oldest first.
    pub(crate) fn frames(&self) -> &[Frame]
        ensures { result.now ≡ (self.now).shots }
    {
        self.playback.shots.frames()
    }

    /// Returns the writes to the sound chip, the first 1,048,576 of them.
    pub(crate) fn sound(&self) -> &[SoundWrite]
        ensures value { result.now ≡ (self.now).sound }
        ensures order { NeverFallFrom 0 result.now }
        ensures few { length result.now ≤ 1048576 }
    {
        self.sound.writes()
    }

    /// Returns the RAM.
    pub(crate) fn ram(&self) -> &[u8]
        ensures { result.now ≡ (self.now).ram }
    {
        &self.ram
    }
}
