//! A port that answers a machine's reads of status registers without stopping the machine.
ghost use Rattle.std.specs.Prelude.{◌≡◌, ◌≤◌, ◌<◌, ◌^◌, ◌⊎◌, None, IfSome, IfNone};
ghost use Rattle.session.specs.CodeSight.{byte_seen};

use crate::sight::byte_of;
use beeb_bits::{Side, Tick};
use tube_cell::Readings;
use tube_chip::Op;
use tube_party::{Log, TubePort};
use tube_trace::Entry;

/// A side's status registers, which keep their bytes below a tick, and the log of its accesses.
#[derive(Drop)]
pub(crate) struct StatusPort {
    pub(crate) side: Side,
    /// The bytes of the registers 0, 2, 4 and 6.
    pub(crate) status: [u8; 4],
    pub(crate) below: Tick,
    pub(crate) log: Log,
}

/// A log that has counted `MOST_COUNT` accesses gets no further one from the port.
const MOST_COUNT: u64 = 1 << 62;

impl StatusPort {
    ghost use Rattle.session.specs.CodePort.{shown, IsRead};

    /// Makes a port for the registers as `readings` show them. The port holds the log meanwhile.
    pub(crate) fn take(log: &mut Log, side: Side, readings: &Readings, below: Tick) -> StatusPort
        ensures { shown result ≡ record { side = side; status = readings.now.status; below = below.0; log = log.old } }
    {
        StatusPort {
            side,
            status: readings.status,
            below,
            log: log.take(),
        }
    }

    /// Reads one of the registers at a tick below `below`, and notes the read. Returns `None`,
    /// unchanged, for any other access, or if the log has counted `MOST_COUNT` accesses.
    #[inline(always)]
    pub(crate) fn read(&mut self, tick: Tick, op: Op) -> Option<u8>
        ensures read { IfSome result (λ byte. IsRead (shown self.old) tick.0 op byte (shown self.new)) }
        ensures none { IfNone result (self.new ≡ self.old) }
        ensures other { (self.old).log.count < 2 ^ 62 →
            IfNone result (((self.old).below.0 ≤ tick.0) ⊎ (byte_seen (self.old).status op ≡ None)) }
    {
        if tick >= self.below || self.log.count >= MOST_COUNT {
            return None;
        }
        let answer = byte_of(&self.status, op)?;
        let side = self.side;
        self.log.note(Entry {
            tick,
            side,
            op,
            answer,
        });
        Some(answer)
    }
}

impl TubePort for StatusPort {
    ghost use Rattle.session.specs.CodePort.{Shown, shown, IsRead};

    ghost State = { Shown };

    ghost state = { shown };

    ghost answers = { IsRead };

    #[inline(always)]
    fn may_answer(&self, from: Tick, _to: Tick) -> bool {
        from < self.below
    }

    #[inline(always)]
    fn answers_single_accesses(&self) -> bool {
        true
    }

    #[inline(always)]
    fn ask(&mut self, tick: Tick, op: Op) -> Option<u8> {
        self.read(tick, op)
    }

    // A status register has one byte at all ticks below `below`.
    #[inline(always)]
    fn again(&mut self, tick: Tick, op: Op, byte: u8, period: u64, most: u64) -> u64 {
        let mut times = 0;
        if byte_of(&self.status, op) != Some(byte) {
            return times;
        }
        let mut at = tick.0 + period;
        while times < most && at < self.below.0 && self.log.count < MOST_COUNT {
            self.log.note(Entry {
                tick: Tick(at),
                side: self.side,
                op,
                answer: byte,
            });
            times += 1;
            at += period;
        }
        times
    }
}
