//! Ports, which answer a party's accesses without stopping the party.
ghost use Rattle.std.specs.Prelude.{◌≡◌, ◌≤◌, ◌<◌, ◌+◌, ◌*◌, ◌^◌, ℕ, MatchOption};
ghost use Rattle.tube_chip.specs.declared.Op.{Op};
ghost use Rattle.tube_party.specs.Transitions.{IsAnsweredAgain};

use beeb_bits::Tick;
use tube_chip::Op;

/// Answers a running party's Tube accesses: the party need not stop at an access that has an
/// answer.
pub trait TubePort {
    /// The port's state, as contracts see it.
    ghost State: { Type 0 };

    ghost state: { Self → State };

    /// In a state, an access at a tick may be answered by a byte, which leads to another state.
    ghost answers: { State → ℕ → Op → ℕ → State → Type 0 };

    /// Returns `true` if the port may answer an access at a tick from `from` on, below `to`.
    fn may_answer(&self, from: Tick, to: Tick) -> bool;

    /// Returns `true` if the port is asked about each access, and `false` if only about those that
    /// a party makes as part of whole instructions. In the latter case a party may stop at each
    /// other access.
    fn answers_single_accesses(&self) -> bool {
        false
    }

    /// Returns the byte that an access at `tick` reads, or 0 for a write. Returns `None`,
    /// unchanged, if the party must stop there.
    fn ask(&mut self, tick: Tick, op: Op) -> Option<u8>
        ensures { MatchOption result (state self.new ≡ state self.old) (λ byte. answers (state self.old) tick.0 op byte (state self.new)) };

    /// Answers further accesses `op` by `byte`, at `tick + period` and each `period` ticks later.
    /// Returns their number, at most `most`. A port that returns 0 is asked each time.
    fn again(&mut self, tick: Tick, op: Op, byte: u8, period: u64, most: u64) -> u64
        requires { tick.0 + period * (most + 1) < 2 ^ 63 }
        ensures again { IsAnsweredAgain answers op byte period result (state self.old) tick.0 (state self.new) }
        ensures few { result ≤ most }
    {
        let _ = (tick, op, byte, period, most);
        0
    }
}

/// A port without answers.
#[derive(Drop)]
pub struct NoPort;

impl TubePort for NoPort {
    ghost use Rattle.std.specs.Prelude.{ℕ};
    ghost use Rattle.tube_chip.specs.declared.Op.{Op};

    ghost State = { Unit {0} };

    ghost state = { λ _. tt };

    ghost answers = { λ d t op byte e. ⊥ };

    #[inline(always)]
    fn may_answer(&self, _from: Tick, _to: Tick) -> bool {
        false
    }

    #[inline(always)]
    fn ask(&mut self, _tick: Tick, _op: Op) -> Option<u8> {
        None
    }
}
