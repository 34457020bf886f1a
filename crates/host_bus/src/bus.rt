//! The bus. Its devices lag, and catch up if an access, a line or the picture requires it.
ghost use Rattle.std.specs.Prelude.{◌≡◌, ◌≤◌, ◌<◌, ◌+◌, ◌^◌, ◌⊎◌, ◌↔◌, ℕ, true, false, unwrap_or, IfOk, IfSome, None, Some, MatchOption, length, map};
ghost use Rattle.std.proofs.Props.{props};
ghost use Rattle.sn76489.specs.Samples.{NeverFallFrom};
ghost use Rattle.host_devices.specs.Map.{place_of, stretch};
ghost use Rattle.host_bus.specs.Board.{answer_at, read_at, written_at};
ghost use Rattle.host_bus.specs.Bus.{bus_closed, closed_at, clock_of, bus_answer, bus_after_read, bus_after_write, bus_irq};
ghost use Rattle.host_bus.specs.Bus.{bus_nmis, bus_break_pending, bus_next_break, bus_break_taken, bus_disc, bus_power_on};
ghost use Rattle.host_bus.specs.Peek.{bus_peek};
ghost use Rattle.host_bus.specs.Lag.{IsBehind, IsCalm};

use crate::board::Board;
use crate::plugged::{read_first, write_first};
use beeb_bits::{Clock, NoMemory, Tick};
use bus_plug::BusDevice;
use disc_image::Disc;
use key_script::Script;
use raster::{Frame, reads_go_on, stores_below_are_unseen};
use rom_set::RomSet;
use sn76489::SoundWrite;
use std::alloc::Global;

/// The host's bus: the board, and the plugged devices on FRED and JIM. `closed` is the tick that
/// contracts see. The devices are stepped up to `board.closed`, and the picture is `owed`
/// microseconds before that. They catch up at an access of one of them, and before a line to the
/// processor may change. They also do before a store into memory that the picture may read.
#[derive(Drop)]
pub struct Bus<D = Box<dyn BusDevice + Send>> {
    board: Board,
    plugs: Vec<D>,
    closed: u64,
    // Up to this tick the lines to the processor do not change.
    calm: u64,
    ghost behind: { IsBehind board closed calm } by { Prim.hlevel props },
}

impl<D: BusDevice> Bus<D> {
    ghost use Rattle.host_bus.specs.View.{bus_seen, bus_stepped, caught_up};

    /// Makes the bus at power-on. It takes the memory of all shots of the script, and of all sound
    /// writes. Out of memory, it drops all arguments.
    pub fn make(
        alloc: Global,
        clock: Clock,
        roms: RomSet,
        d0: Option<Disc>,
        d1: Option<Disc>,
        script: Script,
        plugs: Vec<D>,
    ) -> Result<Bus<D>, NoMemory>
        ensures { let devices = map D.plug plugs.items in
            IfOk result (λ b. bus_seen D.plug b ≡ bus_power_on clock roms d0 d1 script devices) }
    {
        let board = Board::make(alloc, clock, roms, d0, d1, script)?;
        let calm = board.calm();
        Ok(Bus {
            board,
            plugs,
            closed: 0,
            calm,
        })
    }

    /// Returns the length of a tick.
    #[inline(always)]
    pub fn clock(&self) -> Clock
        ensures { result ≡ clock_of (bus_seen D.plug self.now) }
    {
        self.board.clock()
    }

    /// Returns the tick where the bus is closed: all ticks below it are done.
    #[inline(always)]
    pub fn closed(&self) -> u64
        ensures { result ≡ closed_at (bus_seen D.plug self.now) }
    {
        self.closed
    }

    /// Does all device steps below `t`. If no line to the processor changes before `t`, only
    /// `closed` changes.
    #[inline(always)]
    pub fn close(&mut self, t: u64)
        requires low { closed_at (bus_seen D.plug self.old) ≤ t }
        requires room { t < 2 ^ 48 }
        ensures { bus_seen D.plug self.new ≡ bus_closed (bus_seen D.plug self.old) t }
    {
        if t <= self.calm {
            self.closed = t;
        } else {
            self.catch_up(t);
        }
    }

    // Steps the devices up to `t`.
    #[inline(never)]
    fn catch_up(&mut self, t: u64)
        requires low { closed_at (bus_seen D.plug self.old) ≤ t }
        requires room { t < 2 ^ 48 }
        ensures { bus_seen D.plug self.new ≡ bus_closed (bus_seen D.plug self.old) t }
    {
        self.board.close(t);
        self.closed = t;
        self.calm = self.board.calm();
    }

    /// Returns a byte of the RAM or of a ROM. No device step changes it.
    #[inline(always)]
    pub fn memory(&self, at: u16) -> u8
        requires { (at < 0xfc00) ⊎ (0xff00 ≤ at) }
        ensures answer { (t : ℕ) → result ≡ bus_answer (bus_seen D.plug self.now) t at }
        ensures still { bus_after_read (bus_seen D.plug self.now) at ≡ bus_seen D.plug self.now }
        ensures fast { (cycle : ℕ) → stretch at cycle ≡ 1 }
    {
        self.board.memory(at)
    }

    /// Returns the byte that a read of `at` gives at any tick. Returns `None` exactly from FC00 to
    /// FEFF, where devices answer. Nothing changes.
    pub fn peek(&self, at: u16) -> Option<u8>
        ensures value { result ≡ bus_peek (bus_seen D.plug self.now) at }
        ensures read { IfSome result (λ byte. (t : ℕ) → byte ≡ bus_answer (bus_seen D.plug self.now) t at) }
        ensures none { (result ≡ None) ↔ ((0xFC00 ≤ at) × (at ≤ 0xFEFF)) }
    {
        if at < 0xfc00 {
            return Some(self.memory(at));
        }
        if at <= 0xfeff {
            return None;
        }
        Some(self.memory(at))
    }

    /// Does all device steps below `t`, and then writes a byte to the RAM. If no line to the
    /// processor changes before `t`, and the picture reads no byte so low, only `closed` and the
    /// byte change.
    #[inline(always)]
    pub fn put(&mut self, t: u64, at: u16, v: u8)
        requires low { closed_at (bus_seen D.plug self.old) ≤ t }
        requires room { t < 2 ^ 48 }
        requires ram { at < 0x8000 }
        ensures after { let closed = bus_closed (bus_seen D.plug self.old) t in
            bus_seen D.plug self.new ≡ bus_after_write closed at v }
        ensures fast { (cycle : ℕ) → stretch at cycle ≡ 1 }
    {
        reads_go_on();
        stores_below_are_unseen();
        if t <= self.calm && at < self.board.lowest() {
            self.closed = t;
            self.board.store(at, v);
        } else {
            self.put_stepped(t, at, v);
        }
    }

    // Does what `put` does, if the devices may have to be stepped, or the picture drawn.
    #[inline(never)]
    fn put_stepped(&mut self, t: u64, at: u16, v: u8)
        requires low { closed_at (bus_seen D.plug self.old) ≤ t }
        requires room { t < 2 ^ 48 }
        requires ram { at < 0x8000 }
        ensures { let closed = bus_closed (bus_seen D.plug self.old) t in
            bus_seen D.plug self.new ≡ bus_after_write closed at v }
    {
        self.close(t);
        self.settle();
        self.board.store(at, v);
    }

    // Reads an address in SHEILA at the last tick that is done.
    #[tactic(auto, using(crate::proofs::CalmThere::behind_there))]
    fn read_device(&mut self, at: u16) -> u8
        requires low { 0xfe00 ≤ at }
        requires high { at ≤ 0xfeff }
        ensures answer { let old = caught_up self.old in
            (t : ℕ) → old.closed ≡ t + 1 → result ≡ answer_at (place_of at) old t at }
        ensures after { caught_up self.new ≡ read_at (place_of at) at (caught_up self.old) }
        ensures closed { (caught_up self.new).closed ≡ (caught_up self.old).closed }
        ensures plugs { self.new.plugs ≡ self.old.plugs }
    {
        self.board.close(self.closed);
        if let Some(byte) = self.board.held(at) {
            return byte;
        }
        let byte = self.board.read(at);
        self.calm = self.board.calm();
        byte
    }

    // Writes an address in SHEILA.
    fn write_device(&mut self, at: u16, v: u8)
        requires low { 0xfe00 ≤ at }
        requires high { at ≤ 0xfeff }
        ensures after { caught_up self.new ≡ written_at (place_of at) at v (caught_up self.old) }
        ensures closed { (caught_up self.new).closed ≡ (caught_up self.old).closed }
        ensures plugs { self.new.plugs ≡ self.old.plugs }
    {
        self.board.close(self.closed);
        self.board.write(at, v);
        self.calm = self.board.calm();
    }

    // Reads an address at the last tick that is done.
    fn read_now(&mut self, at: u16) -> u8
        ensures answer { let old = bus_seen D.plug self.old in
            (t : ℕ) → closed_at old ≡ t + 1 → result ≡ bus_answer old t at }
        ensures after { bus_seen D.plug self.new ≡ bus_after_read (bus_seen D.plug self.old) at }
        ensures closed { closed_at (bus_seen D.plug self.new) ≡ closed_at (bus_seen D.plug self.old) }
    {
        if at < 0xfc00 || at >= 0xff00 {
            self.memory(at)
        } else if at <= 0xfdff {
            read_first(&mut self.plugs, at)
        } else {
            self.read_device(at)
        }
    }

    // Writes an address at the last tick that is done.
    fn write_now(&mut self, at: u16, v: u8)
        ensures after { bus_seen D.plug self.new ≡ bus_after_write (bus_seen D.plug self.old) at v }
        ensures closed { closed_at (bus_seen D.plug self.new) ≡ closed_at (bus_seen D.plug self.old) }
    {
        if at < 0x8000 {
            self.put(self.closed, at, v);
        } else if 0xfc00 <= at && at <= 0xfdff {
            write_first(&mut self.plugs, at, v);
        } else if 0xfe00 <= at && at <= 0xfeff {
            self.write_device(at, v);
        }
    }

    /// Reads any address at tick `t`, after the devices are closed at `t` + 1.
    pub fn read(&mut self, t: Tick, at: u16) -> u8
        requires later { closed_at (bus_seen D.plug self.old) ≤ t.0 + 1 }
        requires room { t.0 < 2 ^ 40 }
        ensures answer { result ≡ bus_answer (bus_closed (bus_seen D.plug self.old) (t.0 + 1)) t.0 at }
        ensures after { let closed = bus_closed (bus_seen D.plug self.old) (t.0 + 1) in
            bus_seen D.plug self.new ≡ bus_after_read closed at }
        ensures closed { closed_at (bus_seen D.plug self.new) ≡ t.0 + 1 }
    {
        self.close(t.0 + 1);
        self.read_now(at)
    }

    /// Writes any address at tick `t`, after the devices are closed at `t` + 1.
    pub fn write(&mut self, t: Tick, at: u16, v: u8)
        requires later { closed_at (bus_seen D.plug self.old) ≤ t.0 + 1 }
        requires room { t.0 < 2 ^ 40 }
        ensures after { let closed = bus_closed (bus_seen D.plug self.old) (t.0 + 1) in
            bus_seen D.plug self.new ≡ bus_after_write closed at v }
        ensures closed { closed_at (bus_seen D.plug self.new) ≡ t.0 + 1 }
    {
        let next = t.0 + 1;
        self.close(next);
        self.write_now(at, v);
    }

    /// Returns a tick. Up to it the lines to the processor do not change, however far the bus is
    /// closed.
    #[inline(always)]
    #[tactic(auto, using(crate::proofs::CalmThere::calm_there))]
    pub fn calm(&self) -> u64
        ensures { IsCalm result (bus_seen D.plug self.now).board }
    {
        self.calm
    }

    /// Reports if a device requests an interrupt at tick `t`, after the devices are closed at `t` +
    /// 1.
    #[inline(always)]
    pub fn irq(&mut self, t: Tick) -> bool
        requires later { closed_at (bus_seen D.plug self.old) ≤ t.0 + 1 }
        requires room { t.0 < 2 ^ 40 }
        ensures after { bus_seen D.plug self.new ≡ bus_closed (bus_seen D.plug self.old) (t.0 + 1) }
        ensures answer { result ≡ bus_irq (bus_closed (bus_seen D.plug self.old) (t.0 + 1)) }
    {
        let behind = t.0 + 1;
        self.close(behind);
        self.irq_now()
    }

    /// Reports if a device requests an interrupt at the last tick that is done.
    #[inline(always)]
    pub fn irq_now(&self) -> bool
        ensures { result ≡ bus_irq (bus_seen D.plug self.now) }
    {
        self.board.irq()
    }

    /// Returns the number of rises of the NMI line by tick `t`, after the devices are closed at `t`
    /// + 1.
    #[inline(always)]
    pub fn nmis(&mut self, t: Tick) -> u64
        requires later { closed_at (bus_seen D.plug self.old) ≤ t.0 + 1 }
        requires room { t.0 < 2 ^ 40 }
        ensures answer { result ≡ bus_nmis (bus_closed (bus_seen D.plug self.old) (t.0 + 1)) }
        ensures after { bus_seen D.plug self.new ≡ bus_closed (bus_seen D.plug self.old) (t.0 + 1) }
    {
        self.close(t.0 + 1);
        self.nmis_now()
    }

    /// Returns the number of rises of the NMI line by the last tick that is done.
    #[inline(always)]
    pub fn nmis_now(&self) -> u64
        ensures { result ≡ bus_nmis (bus_seen D.plug self.now) }
    {
        self.board.nmis()
    }

    /// Reports if a break is pending at tick `t`: the script has one with a tick of at most `t`
    /// that was not taken.
    #[inline(always)]
    pub fn break_pending(&self, t: Tick) -> bool
        requires later { closed_at (bus_seen D.plug self.now) ≤ t.0 + 1 }
        requires room { t.0 < 2 ^ 40 }
        ensures { result ≡ bus_break_pending (bus_seen D.plug self.now) t.0 }
    {
        self.break_tick() <= t.0
    }

    /// Takes every break that is pending at tick `t`. At least one must be. First the devices are
    /// closed at `t` + 1. Then the disc latch becomes 00, and the user's 6522 is reset to its
    /// power-on state. It takes no memory.
    pub fn take_break(&mut self, t: Tick)
        requires later { closed_at (bus_seen D.plug self.old) ≤ t.0 + 1 }
        requires room { t.0 < 2 ^ 40 }
        requires pending { bus_break_pending (bus_seen D.plug self.old) t.0 ≡ true }
        ensures after { let closed = bus_closed (bus_seen D.plug self.old) (t.0 + 1) in
            bus_seen D.plug self.new ≡ bus_break_taken closed t.0 }
        ensures closed { closed_at (bus_seen D.plug self.new) ≡ t.0 + 1 }
    {
        self.close(t.0 + 1);
        self.settle();
        self.board.take_break(t.0);
        self.calm = self.board.calm();
    }

    /// Returns the tick of the script's first break that was not taken. Returns `None` if none is
    /// left.
    pub fn next_break(&self) -> Option<Tick>
        ensures { let next = bus_next_break (bus_seen D.plug self.now) in
            MatchOption result (next ≡ None) (λ t. next ≡ Some t.0) }
    {
        self.board.next_break()
    }

    /// Returns the tick of the script's first break that was not taken, or 2^64 - 1 if none is
    /// left. A break is pending from that tick on, and none before it.
    #[inline(always)]
    pub fn break_tick(&self) -> u64
        ensures value { result ≡ unwrap_or (bus_next_break (bus_seen D.plug self.now)) 18446744073709551615 }
        ensures none { (t : ℕ) → t < result → bus_break_pending (bus_seen D.plug self.now) t ≡ false }
        ensures some { (t : ℕ) → result ≤ t → t < 2 ^ 63 → bus_break_pending (bus_seen D.plug self.now) t ≡ true }
    {
        self.board.break_tick()
    }

    /// Closes the bus at `n`, unless it is closed further, and steps the devices up to there.
    pub fn finish(&mut self, n: Tick)
        requires { n.0 < 2 ^ 40 }
        ensures closed { bus_seen D.plug self.new ≡ bus_closed (bus_seen D.plug self.old) n.0 }
        ensures stepped { bus_stepped D.plug self.new ≡ bus_seen D.plug self.new }
    {
        if self.closed() < n.0 {
            self.close(n.0);
        }
        self.settle();
    }

    /// Steps the devices up to where the bus is closed. Only `disc` and `frames` show that they
    /// lag.
    #[tactic(auto, using(crate::proofs::CalmThere::behind_there))]
    pub fn settle(&mut self)
        ensures same { bus_seen D.plug self.new ≡ bus_seen D.plug self.old }
        ensures stepped { bus_stepped D.plug self.new ≡ bus_seen D.plug self.new }
    {
        self.board.close(self.closed);
    }

    /// Returns the RAM.
    pub fn ram(&self) -> &[u8]
        ensures { result.now ≡ (bus_seen D.plug self.now).board.ram }
    {
        self.board.ram()
    }

    /// Returns the frames that shots took, the oldest first, up to where the devices are stepped. A
    /// shot takes the last finished frame, or a black one, before the device step at its tick.
    pub fn frames(&self) -> &[Frame]
        ensures { result.now ≡ (bus_stepped D.plug self.now).board.shots }
    {
        self.board.frames()
    }

    /// Returns the writes to the sound chip, in their order: the first 1,048,576 of them. Later
    /// ones are ignored. The moment of a write is the number of the microsecond after it.
    pub fn sound(&self) -> &[SoundWrite]
        ensures value { result.now ≡ (bus_seen D.plug self.now).board.sound }
        ensures order { NeverFallFrom 0 result.now }
        ensures few { length result.now ≤ 1048576 }
    {
        self.board.sound()
    }

    /// Returns the disc in drive 0 or 1, up to where the devices are stepped. Returns `None` if the
    /// drive has none, and for any other number.
    pub fn disc(&self, drive: u8) -> Option<&Disc>
        ensures { let there = bus_disc drive (bus_stepped D.plug self.now) in
            MatchOption result (there ≡ None) (λ disc. there ≡ Some disc.now) }
    {
        self.board.disc(drive)
    }

    /// Returns the plugged devices.
    pub fn plugs(&self) -> &[D]
        ensures { map D.plug result.now ≡ (bus_seen D.plug self.now).plugs }
    {
        &self.plugs
    }
}
