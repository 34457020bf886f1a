//! The views of the host and of the second processor.
use crate::seen::Seen;
use beeb_bits::Tick;
use bus_plug::BusDevice;
use cpu_alu::Regs;
use host_mach::HostMachine;
use para_mach::ParaMachine;
use tube_chip::Lines;
use tube_machine::SkipWhile;

impl<D: BusDevice> Seen for HostMachine<D> {
    ghost use Rattle.host_mach.specs.State.{HostState};
    ghost use Rattle.host_mach.specs.Step.{host_transitions};
    ghost use Rattle.host_mach.specs.Lawful.{host_permitted};
    ghost use Rattle.host_mach.specs.View.{host_seen};
    ghost use Rattle.follow.specs.Machines.{host_sight, host_seen_laws, same_itself};

    ghost Inside = { HostState };

    ghost inside = { λ m. host_seen D.plug m };

    ghost steps = { host_transitions };

    ghost sights = { host_sight };

    ghost seen = { host_seen_laws };

    ghost same = { same_itself _ _ };

    ghost may_ask = { host_permitted };

    fn regs(&self) -> Regs {
        self.regs()
    }

    #[inline(always)]
    fn starting(&self) -> bool {
        HostMachine::starting(self)
    }

    #[inline]
    fn peek(&self, at: u16) -> Option<u8> {
        self.peek(at)
    }

    #[inline(always)]
    fn skip_while(&mut self, until: Tick, lines: &Lines, safe_until: Tick, skip: SkipWhile) {
        self.skip_while(until, lines, safe_until, skip);
    }
}

impl Seen for ParaMachine {
    ghost use Rattle.para_mach.specs.State.{ParaState};
    ghost use Rattle.para_mach.specs.Step.{para_transitions};
    ghost use Rattle.para_mach.specs.Lawful.{para_permitted};
    ghost use Rattle.follow.specs.Machines.{para_sight, para_seen_laws, same_itself};

    ghost Inside = { ParaState };

    ghost inside = { λ m. m };

    ghost steps = { para_transitions };

    ghost sights = { para_sight };

    ghost seen = { para_seen_laws };

    ghost same = { same_itself _ _ };

    ghost may_ask = { para_permitted };

    fn regs(&self) -> Regs {
        self.regs()
    }

    #[inline(always)]
    fn starting(&self) -> bool {
        ParaMachine::starting(self)
    }

    #[inline]
    fn peek(&self, at: u16) -> Option<u8> {
        self.peek(at)
    }

    #[inline(always)]
    fn skip_while(&mut self, until: Tick, lines: &Lines, safe_until: Tick, skip: SkipWhile) {
        self.skip_while(until, lines, safe_until, skip);
    }
}
