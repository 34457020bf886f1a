//! The machine.
ghost use Rattle.std.specs.Prelude.{◌≡◌, ◌≤◌, ◌<◌, ◌+◌, ◌^◌, ◌↔◌, ℕ, IfOk, IfSome, None, Some, MatchOption, false, length, map, min, unwrap_or};
ghost use Rattle.host_bus.specs.Board.{board_closed};
ghost use Rattle.host_bus.specs.Bus.{bus_disc, bus_break_pending, bus_next_break};
ghost use Rattle.sn76489.specs.Samples.{NeverFallFrom};
ghost use Rattle.cpu6502.specs.Sequences.{halted, starting};
ghost use Rattle.host_mach.specs.State.{power_on, with_tube};
ghost use Rattle.tube_party.specs.Transitions.{shown_lines};
ghost use Rattle.tube_machine.specs.SkipWhile.{IsSkipped, Passes};
ghost use Rattle.host_mach.specs.Step.{host_bus_model, host_transitions};
ghost use Rattle.host_mach.specs.Peek.{host_peek};

use crate::bus::HostBus;
use beeb_bits::{Clock, Crosses, NoMemory, Tick};
use bus_plug::BusDevice;
use cpu_alu::Regs;
use cpu6502::Cpu;
use disc_image::Disc;
use host_bus::Bus;
use key_script::Script;
use raster::Frame;
use rom_set::RomSet;
use sn76489::SoundWrite;
use std::alloc::Global;
use tube_chip::{Answer, Lines};
use tube_machine::{SkipWhile, advance_at, advance_seeing, answer, skip_over};
use tube_party::{Ask, MOST, NO_LINES, Party, TubePort};

/// The BBC Micro: a 6502 at 2 MHz and its bus, with the Tube at FEE0 to FEFF, unless it is made
/// without one. The key BREAK, which the script presses, resets the processor, the user VIA, the
/// disc controller, and by the Tube's reset the second processor. The system VIA and its latch, the
/// picture, the ROM latch, the memory and the plugged devices stay as they are. BREAK takes effect
/// at the end of an instruction, of a reset or of an interrupt, in place of an NMI or IRQ. BREAK
/// takes effect at the end of any later cycle if an opcode has halted the processor.
#[derive(Drop)]
pub struct HostMachine<D = Box<dyn BusDevice + Send>> {
    cpu: Cpu,
    bus: HostBus<D>,
    // The tick of the next step.
    due: u64,
    ghost before: { (board_closed bus.bus.board bus.bus.closed).closed ≤ due + 1 },
}

// It can be sent to a thread if its plugged devices can, as boxed ones can.
impl<D: BusDevice + Send> Crosses for HostMachine<D> {}

impl<D: BusDevice> HostMachine<D> {
    ghost use Rattle.host_mach.specs.View.{host_seen, host_stepped};

    /// Makes the machine at power-on, at this clock, before the first cycle of a reset. It takes
    /// the memory of all shots of the script, and of all sound writes. If memory runs out, all is
    /// dropped.
    pub fn make(
        alloc: Global,
        clock: Clock,
        roms: RomSet,
        d0: Option<Disc>,
        d1: Option<Disc>,
        script: Script,
        plugs: Vec<D>,
    ) -> Result<HostMachine<D>, NoMemory>
        ensures { let devices = map D.plug plugs.items in
            IfOk result (λ m. host_seen D.plug m ≡ power_on clock roms d0 d1 script devices) }
    {
        let bus = Bus::make(alloc, clock, roms, d0, d1, script, plugs)?;
        Ok(HostMachine {
            cpu: Cpu::new(),
            bus: HostBus {
                bus,
                nmis: 0,
                tube: true,
            },
            due: 0,
        })
    }

    /// Returns the machine with a Tube at FEE0 to FEFF, as it is made, or with nothing there: a
    /// read yields FE, a write does nothing, and BREAK asks for no reset of the Tube.
    pub fn with_tube(self, there: bool) -> HostMachine<D>
        ensures { host_seen D.plug result ≡ with_tube there (host_seen D.plug self) }
    {
        let mut machine = self;
        machine.bus.tube = there;
        machine
    }

    /// Returns the registers at the start of the instruction, reset or interrupt that the next step
    /// belongs to.
    pub fn regs(&self) -> Regs
        ensures { result ≡ (host_seen D.plug self.now).cpu.regs }
    {
        self.cpu.at_start()
    }

    /// Returns `true` if an opcode without an instruction has halted the processor, until a break.
    pub fn halted(&self) -> bool
        ensures { result ≡ halted (host_seen D.plug self.now).cpu }
    {
        self.cpu.halted()
    }

    /// Returns `true` if the next step is the first cycle of an instruction: not of a reset or an
    /// interrupt, and not one while the processor stays halted.
    #[inline]
    pub fn starting(&self) -> bool
        ensures { result ≡ starting (host_seen D.plug self.now).cpu }
    {
        self.cpu.starting()
    }

    /// Returns the byte that a read of address `at` would yield now: of the RAM, the ROM in the
    /// latch's slot, or the operating system. Returns `None` exactly from FC00 to FEFF, where
    /// devices answer.
    pub fn peek(&self, at: u16) -> Option<u8>
        ensures value { result ≡ host_peek (host_seen D.plug self.now) at }
        ensures read { IfSome result (λ byte. (t : ℕ) → byte ≡ host_bus_model.answer (host_seen D.plug self.now).bus t at) }
        ensures none { (result ≡ None) ↔ ((0xFC00 ≤ at) × (at ≤ 0xFEFF)) }
    {
        self.bus.bus.peek(at)
    }

    /// Skips instructions whose starts `skip` names. Their looks see these lines, and come
    /// before `until` and `safe_until`. It may stop at any start. In the middle of an instruction
    /// it does nothing.
    #[inline(always)]
    pub fn skip_while(&mut self, until: Tick, lines: &Lines, safe_until: Tick, skip: SkipWhile)
        requires { until.0 ≤ 2 ^ 30 }
        ensures { let old = host_seen D.plug self.old in
            let new = host_seen D.plug self.new in
            (k : ℕ) × Passes host_transitions (λ s. IsSkipped skip s.due s.cpu.regs.pc (host_peek s)) until.0 (shown_lines lines.now safe_until.0) k old new }
    {
        skip_over::<(), Cpu, HostBus<D>>(
            &mut self.cpu,
            &mut self.bus,
            &mut self.due,
            &mut (),
            until,
            lines,
            safe_until,
            skip,
        );
    }

    /// Returns the 32,768 bytes of the RAM.
    pub fn ram(&self) -> &[u8]
        ensures { result.now ≡ (host_seen D.plug self.now).bus.bus.board.ram }
    {
        self.bus.bus.ram()
    }

    /// Returns the machine with its devices stepped as far as its bus is closed. Otherwise the
    /// devices may lag, which only `frames` and `disc` show.
    pub fn settled(self) -> HostMachine<D>
        ensures same { host_seen D.plug result ≡ host_seen D.plug self }
        ensures stepped { host_stepped D.plug result ≡ host_seen D.plug self }
    {
        let mut machine = self;
        machine.bus.bus.settle();
        machine
    }

    /// Returns the frames that shots took, the oldest first, as far as the devices are stepped. A
    /// shot takes the last frame that was finished, or a black one, before the device step at its
    /// tick.
    pub fn frames(&self) -> &[Frame]
        ensures { result.now ≡ (host_stepped D.plug self.now).bus.bus.board.shots }
    {
        self.bus.bus.frames()
    }

    /// Returns the writes to the sound chip, in their order: the first 1,048,576 of them, since no
    /// later one is stored. The moment of a write is the number of the microsecond after it.
    pub fn sound(&self) -> &[SoundWrite]
        ensures value { result.now ≡ (host_seen D.plug self.now).bus.bus.board.sound }
        ensures order { NeverFallFrom 0 result.now }
        ensures few { length result.now ≤ 1048576 }
    {
        self.bus.bus.sound()
    }

    /// Returns the disc in drive 0 or 1, as far as the devices are stepped, or `None` if the drive
    /// has none or for any other number.
    pub fn disc(&self, drive: u8) -> Option<&Disc>
        ensures { let there = bus_disc drive (host_stepped D.plug self.now).bus.bus in
            MatchOption result (there ≡ None) (λ disc. there ≡ Some disc.now) }
    {
        self.bus.bus.disc(drive)
    }

    /// Returns the plugged devices.
    pub fn plugs(&self) -> &[D]
        ensures { map D.plug result.now ≡ (host_seen D.plug self.now).bus.bus.plugs }
    {
        self.bus.bus.plugs()
    }

    // Returns the tick of the next break, or the end of the longest run.
    fn next_break(&self) -> u64
        ensures none { (t : ℕ) → t < result → bus_break_pending (host_seen D.plug self.now).bus.bus t ≡ false }
        ensures value { let next = bus_next_break (host_seen D.plug self.now).bus.bus in
            result ≡ min 1073741824 (unwrap_or next 1073741824) }
    {
        MOST.min(self.bus.bus.break_tick())
    }
}

impl<D: BusDevice> Party for HostMachine<D> {
    ghost use Rattle.host_mach.specs.State.{HostState};
    ghost use Rattle.host_mach.specs.Step.{host_transitions};
    ghost use Rattle.beeb_bits.specs.declared.Side.TheVariants.{Host};
    ghost use Rattle.tube_chip.specs.Events.{is_side};
    ghost use Rattle.host_mach.specs.Lawful.{host_lawful, host_permitted};
    ghost use Rattle.host_mach.specs.View.{host_seen};
    ghost use Rattle.tube_party.specs.Quiet.{IsQuiet};
    ghost use Rattle.host_mach.specs.CodeQuiet.{quiet_of};

    ghost State = { HostState };

    ghost state = { λ m. host_seen D.plug m };

    ghost transitions = { host_transitions };

    ghost plays = { is_side Host };

    ghost lawful = { host_lawful };

    ghost permitted = { host_permitted };

    #[inline(always)]
    fn sees_hirq_alone(&self) -> bool {
        true
    }

    #[inline]
    fn due(&self) -> Tick {
        Tick(self.due)
    }

    fn quiet(&self) -> Tick
        ensures quiet { IsQuiet host_transitions (host_seen D.plug self.now) result.0 }
        ensures tick { result.0 ≡ quiet_of (host_seen D.plug self.now) }
    {
        if self.cpu.halted() && !self.bus.answers(self.cpu.at_start().pc) {
            Tick(self.due.max(self.next_break()))
        } else {
            Tick(self.due)
        }
    }

    #[inline(always)]
    fn advance(&mut self, until: Tick) -> Ask {
        // No look is below tick 0, so none sees these lines.
        self.advance_seeing(until, &NO_LINES, Tick(0))
    }

    #[inline(always)]
    fn advance_seeing(&mut self, until: Tick, lines: &Lines, safe_until: Tick) -> Ask {
        advance_seeing::<(), Cpu, HostBus<D>>(
            &mut self.cpu,
            &mut self.bus,
            &mut self.due,
            &mut (),
            until,
            lines,
            safe_until,
        )
    }

    #[inline(always)]
    fn advance_at<K: TubePort>(
        &mut self,
        until: Tick,
        lines: &Lines,
        safe_until: Tick,
        port: &mut K,
    ) -> Ask {
        advance_at::<(), Cpu, HostBus<D>, K>(
            &mut self.cpu,
            &mut self.bus,
            &mut self.due,
            &mut (),
            until,
            lines,
            safe_until,
            port,
        )
    }

    #[inline(always)]
    fn answer(&mut self, given: Answer) {
        answer::<(), Cpu, HostBus<D>>(&mut self.cpu, &mut self.bus, &mut self.due, given)
    }
}
