//! The port of a run with both parties on one thread.
ghost use Rattle.std.specs.Prelude.{◌≡◌, true};
ghost use Rattle.tube_party.specs.CodePassing.{MayPass};

use crate::cursor::is_status;
use crate::log::Log;
use crate::noting::note_own;
use crate::port::TubePort;
use beeb_bits::{Side, Tick};
use tube_chip::{Chip, Op};
use tube_trace::Entry;

/// The chip, with the logs of both sides. It answers accesses below a tick of the side in turn:
/// those that change neither the lines nor what the parasite has read ahead of the host.
#[derive(Drop)]
pub(crate) struct ChipPort {
    pub(crate) chip: Chip,
    pub(crate) host_log: Log,
    pub(crate) para_log: Log,
    pub(crate) turn: Side,
    pub(crate) safe_until: Tick,
    /// The parasite reads its status registers ahead of the host, or has read them.
    pub(crate) is_read: bool,
    /// The port answers at all.
    pub(crate) is_open: bool,
}

/// A log that has counted `MOST_COUNT` accesses gets no further one from the port.
const MOST_COUNT: u64 = 1 << 62;

/// Returns `true` only if `op` of `side` leaves the lines, and with `is_read` also what the
/// parasite's status registers show. With `is_read`, only status reads of the parasite pass.
#[inline(always)]
pub(crate) fn passes(chip: &Chip, side: Side, is_read: bool, op: Op) -> bool
    ensures { result ≡ true → MayPass chip.now side is_read op }
{
    match side {
        Side::Para if is_read => is_status(op),
        Side::Host if is_read => chip.leaves_seen(op),
        _ => chip.leaves_lines(side, op),
    }
}

impl TubePort for ChipPort {
    ghost use Rattle.tube_party.specs.CodePassing.{ChipPortState, chip_port_state, IsPassed};

    ghost State = { ChipPortState };

    ghost state = { chip_port_state };

    ghost answers = { IsPassed };

    #[inline(always)]
    fn may_answer(&self, from: Tick, _to: Tick) -> bool {
        self.is_open && from < self.safe_until
    }

    #[inline(always)]
    fn ask(&mut self, tick: Tick, op: Op) -> Option<u8> {
        if !self.is_open || tick >= self.safe_until {
            return None;
        }
        if !passes(&self.chip, self.turn, self.is_read, op) {
            return None;
        }
        if self.host_log.count >= MOST_COUNT || self.para_log.count >= MOST_COUNT {
            return None;
        }
        let side = self.turn;
        let answer = self.chip.apply(side, op);
        let entry = Entry {
            tick,
            side,
            op,
            answer,
        };
        note_own(&mut self.host_log, &mut self.para_log, entry);
        Some(answer)
    }

    // A status register shows one byte as long as the chip is unchanged.
    #[inline(always)]
    fn again(&mut self, tick: Tick, op: Op, byte: u8, period: u64, most: u64) -> u64 {
        if !is_status(op) || self.chip.apply(self.turn, op) != byte {
            return 0;
        }
        let mut times = 0;
        let mut at = tick.0 + period;
        while times < most && at < self.safe_until.0 {
            if self.host_log.count >= MOST_COUNT || self.para_log.count >= MOST_COUNT {
                break;
            }
            let entry = Entry {
                tick: Tick(at),
                side: self.turn,
                op,
                answer: byte,
            };
            note_own(&mut self.host_log, &mut self.para_log, entry);
            times += 1;
            at += period;
        }
        times
    }
}
