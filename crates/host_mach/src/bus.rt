//! The bus, with the count of NMIs that its processor has taken.
ghost use Rattle.std.specs.Prelude.{◌≡◌, ◌≤◌, ◌*◌, ◌/◌, ◌&&◌};
ghost use Rattle.beeb_bits.specs.Clock.{host};
ghost use Rattle.host_devices.specs.Map.{stretch};
ghost use Rattle.host_mach.specs.Step.{is_tube};

use beeb_bits::{Clock, Tick};
use bus_plug::BusDevice;
use cpu_alu::{Cycle, Regs};
use cpu_whole::{LastAccess, Plain, branch_to, last_access, whole};
use host_bus::Bus;
use host_devices::stretch;
use op_table::Part;
use tube_chip::{Lines, Op};
use tube_machine::{AccessError, Done, Interrupts, TubeBus};

/// The bus, with the count of NMIs that its processor has taken.
#[derive(Drop)]
pub(crate) struct HostBus<D> {
    pub(crate) bus: Bus<D>,
    // The rises of the NMI line that were taken.
    pub(crate) nmis: u64,
    // There is a Tube.
    pub(crate) tube: bool,
}

/// Returns `true` for FEE0 to FEFF.
#[inline(always)]
fn is_tube(at: u16) -> bool
    ensures { result ≡ is_tube at }
{
    0xfee0 <= at && at <= 0xfeff
}

// Returns the number of ticks of an access to address `at` that begins at tick `t`.
fn ticks_of(clock: Clock, t: u64, at: u16) -> u64
    ensures value { result ≡ host clock * stretch at (t / host clock) }
    ensures some { host clock ≤ result }
    ensures bound { result ≤ 3 * host clock }
{
    let cycle = clock.host();
    cycle * u64::from(stretch(at, t / cycle))
}

impl<D: BusDevice> HostBus<D> {
    /// Returns `true` if the Tube answers at this address.
    #[inline(always)]
    pub(crate) fn answers(&self, at: u16) -> bool
        ensures { result ≡ (self.now.tube && is_tube at) }
    {
        self.tube && is_tube(at)
    }
}

impl<D: BusDevice> TubeBus<()> for HostBus<D> {
    ghost use Rattle.std.specs.Prelude.{true};
    ghost use Rattle.host_bus.specs.Peek.{bus_peek};
    ghost use Rattle.host_mach.specs.State.{HostBusState};
    ghost use Rattle.host_mach.specs.View.{host_bus_seen};
    ghost use Rattle.host_mach.specs.Step.{host_bus_model};
    ghost use Rattle.host_mach.specs.Lawful.{host_wired, host_plain, host_even, host_joined};
    ghost use Rattle.host_mach.specs.Whole.{plain_read, plain_write, rests, host_memory, host_rests};

    ghost State = { HostBusState };

    ghost state = { λ b. host_bus_seen D.plug b };

    ghost bus_model = { host_bus_model };

    ghost wired = { host_wired };

    ghost plain = { λ b l. true };

    ghost stays_plain = { host_plain };

    ghost Kept = { Unit {0} };

    ghost before = { λ notes b. tt };

    ghost endless = { true };

    ghost room = { λ notes. 0 };

    ghost even = { host_even };

    ghost joined = { host_joined };

    ghost reads = { plain_read };

    ghost writes = { plain_write };

    ghost memory = { host_memory };

    ghost rests = { rests };

    ghost stays_at_rest = { host_rests };

    ghost peek = { λ b at. bus_peek b.bus at };

    #[inline(always)]
    fn cycle(&self) -> u64 {
        self.bus.clock().host()
    }

    #[inline(always)]
    fn has_tube(&self) -> bool {
        self.tube
    }

    #[inline(always)]
    fn closed(&self) -> u64 {
        self.bus.closed()
    }

    #[inline(always)]
    fn close(&mut self, t: u64) {
        self.bus.close(t);
    }

    #[inline(always)]
    fn break_tick(&self) -> u64 {
        self.bus.break_tick()
    }

    fn take_break(&mut self, t: u64) {
        if self.bus.break_pending(Tick(t)) {
            self.bus.take_break(Tick(t));
            self.nmis = self.bus.nmis_now();
        }
    }

    #[inline(always)]
    fn is_plain(&self, _lines: &Lines) -> bool {
        true
    }

    #[inline(always)]
    fn resets(&self, _lines: &Lines) -> bool {
        false
    }

    #[inline(always)]
    fn hold(&mut self) {}

    #[inline(always)]
    fn reset(&mut self, _lines: &Lines) {}

    #[inline(always)]
    fn take(&mut self, lines: &Lines) -> Interrupts {
        let rises = self.bus.nmis_now();
        let irq = self.bus.irq_now() || lines.hirq;
        let nmi = rises != self.nmis;
        if nmi {
            self.nmis = rises;
        }
        Interrupts { nmi, irq }
    }

    #[inline(always)]
    fn take_plain(&mut self, lines: &Lines) -> Interrupts {
        self.take(lines)
    }

    #[inline(always)]
    fn answered(&mut self, _cycle: Cycle) {}

    /// Does an access to memory. A read does not close the devices: no device step changes what it
    /// yields.
    #[inline(always)]
    fn quick(&mut self, t: u64, cycle: Cycle, _notes: &mut ()) -> Option<u8> {
        match cycle {
            Cycle::Read(at) => {
                if at >= 0xfc00 {
                    return None;
                }
                Some(self.bus.memory(at))
            }
            Cycle::Write(at, v) => {
                if at >= 0x8000 {
                    return None;
                }
                self.bus.put(t + 1, at, v);
                Some(0)
            }
        }
    }

    #[inline(always)]
    fn rests_until(&self, lines: &Lines, masks: bool) -> u64 {
        if self.bus.nmis_now() != self.nmis {
            return 0;
        }
        if (self.bus.irq_now() || lines.hirq) && !masks {
            return 0;
        }
        self.bus.calm()
    }

    #[inline(always)]
    fn peek(&self, at: u16) -> Option<u8> {
        self.bus.peek(at)
    }

    #[inline(always)]
    fn whole<L>(&mut self, part: Part, regs: &mut Regs, t: u64, notes: &mut ()) -> u64 {
        whole::<(), HostBus<D>, L>(part, regs, self, t, notes)
    }

    #[inline(always)]
    fn last_access<L>(&self, part: Part, regs: &Regs) -> LastAccess {
        last_access::<(), HostBus<D>, L>(part, regs, self)
    }

    #[inline(always)]
    fn asked(&self, cycle: Cycle) -> Option<Op> {
        match cycle {
            Cycle::Read(at) if self.answers(at) => Some(Op::Read((at % 8) as u8)),
            Cycle::Write(at, v) if self.answers(at) => Some(Op::Write((at % 8) as u8, v)),
            _ => None,
        }
    }

    #[inline(always)]
    fn branch_to<L>(&self, part: Part, from: &Regs, to: &Regs) -> u64 {
        branch_to::<(), HostBus<D>, L>(part, from, to, self)
    }

    fn exchange(&mut self, t: u64, cycle: Cycle, _notes: &mut ()) -> Result<Done, AccessError> {
        let clock = self.bus.clock();
        match cycle {
            Cycle::Read(at) => {
                if self.answers(at) {
                    return Err(AccessError::Tube(Op::Read((at % 8) as u8)));
                }
                Ok(Done {
                    byte: self.bus.read(Tick(t), at),
                    ticks: ticks_of(clock, t, at),
                })
            }
            Cycle::Write(at, v) => {
                if self.answers(at) {
                    return Err(AccessError::Tube(Op::Write((at % 8) as u8, v)));
                }
                self.bus.write(Tick(t), at, v);
                Ok(Done {
                    byte: 0,
                    ticks: ticks_of(clock, t, at),
                })
            }
        }
    }
}

impl<D: BusDevice> Plain<()> for HostBus<D> {
    ghost use Rattle.std.specs.Prelude.{◌≤◌, ◌+◌, ◌*◌, max};
    ghost use Rattle.beeb_bits.specs.Clock.{host};
    ghost use Rattle.host_bus.specs.Bus.{clock_of, closed_at};
    ghost use Rattle.tube_machine.specs.Whole.{reach_of, comes_later};
    ghost use Rattle.host_mach.specs.State.{HostBusState};
    ghost use Rattle.host_mach.specs.View.{host_bus_seen};
    ghost use Rattle.host_mach.specs.Step.{host_bus_model};
    ghost use Rattle.host_mach.specs.Whole.{plain_read, plain_write, host_memory};

    ghost State = { HostBusState };

    ghost state = { λ b. host_bus_seen D.plug b };

    ghost reach = { reach_of host_bus_model plain_read plain_write };

    ghost is_plain = { host_memory.plain };

    ghost may_come = { λ b t n. closed_at b.bus ≤ t + max 1 (host (clock_of b.bus) * n) };

    ghost later = { λ b t n k low high. comes_later (closed_at b.bus) (host (clock_of b.bus)) t n k low high };

    ghost Kept = { Unit {0} };

    ghost before = { λ notes b. tt };

    ghost room = { λ notes. 2 };

    #[inline(always)]
    fn runs(&self, pc: u16) -> bool {
        pc < 0xfbfe
    }

    #[inline(always)]
    fn reads(&self, at: u16) -> bool {
        at < 0xfc00
    }

    #[inline(always)]
    fn writes(&self, at: u16, _notes: &()) -> bool {
        at < 0x8000
    }

    #[inline(always)]
    fn byte(&self, at: u16) -> u8 {
        self.bus.memory(at)
    }

    #[inline(always)]
    fn put(&mut self, t: u64, cycle: u64, at: u16, byte: u8, _notes: &mut ()) {
        self.bus
            .put(t + self.bus.clock().host() * cycle + 1, at, byte);
    }
}
