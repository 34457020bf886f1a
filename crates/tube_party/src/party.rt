//! A machine at the Tube, as a trait.
ghost use Rattle.std.specs.Prelude.{◌≡◌, ◌≤◌, ℕ, Bool, true, Some};
ghost use Rattle.beeb_bits.specs.declared.Side.{Side};
ghost use Rattle.tube_party.specs.Transitions.{Transitions, IsLawful, IsPermitted, SeesHirqAlone, Advances, LookRunToAsk, PortRunToAsk, IsAskedFor, shown_lines};
ghost use Rattle.tube_party.specs.Quiet.{IsQuiet};

use crate::port::TubePort;
use beeb_bits::Tick;
use tube_chip::{Answer, Lines, Op};

/// What the next step below a tick asks of the Tube.
#[derive(Clone, Copy, Debug, PartialEq, Eq)]
pub enum Ask {
    /// No step below the tick asks.
    Nothing,
    /// An access at this tick.
    Access(Tick, Op),
    /// A look at the lines at this tick.
    Look(Tick),
}

/// The most ticks of a run.
pub const MOST: u64 = 1_073_741_824;

/// Placeholder for runs with `safe_until` 0, in which no look reads it.
pub const NO_LINES: Lines = Lines {
    prst: false,
    resets: 0,
    nmis: 0,
    pirq: false,
    hirq: false,
};

/// A machine with a clock, whose steps are bus accesses and looks at the Tube's lines. Contracts
/// see its state, and its steps as functions of that state.
pub trait Party: Drop {
    /// What contracts see of a party.
    ghost State: { Type 0 };

    ghost state: { Self → State };

    /// The party's steps.
    ghost transitions: { Transitions State };

    /// The sides that it may play: some operations are of one side alone.
    ghost plays: { Side → Bool };

    /// Returns `true` only if, of the lines, the party's looks see the host's interrupt request
    /// alone, as those of a host do.
    fn sees_hirq_alone(&self) -> bool
        ensures { result ≡ true → SeesHirqAlone transitions }
    {
        false
    }

    /// Returns the tick of the next step.
    fn due(&self) -> Tick
        ensures { result.0 ≡ transitions.due (state self.now) };

    /// Returns a tick before which no step asks, whatever is answered later. It is not before the
    /// next step.
    fn quiet(&self) -> Tick
        ensures { IsQuiet transitions (state self.now) result.0 }
    {
        self.due()
    }

    /// Does the steps below `until` that ask nothing, up to the first that asks. After `Nothing`
    /// all steps below `until` are done, and the state is closed at `until`, or further if it was
    /// already.
    fn advance(&mut self, until: Tick) -> Ask
        requires { until.0 ≤ MOST }
        ensures { Advances transitions until.0 (state self.old) result (state self.new) };

    /// Does the steps below `until` that ask nothing, and the looks below `safe_until`, which see
    /// `lines`, up to the first step that asks for more. It does `advance` and `answer` in turn; a
    /// machine may do it without stopping at each look.
    fn advance_seeing(&mut self, until: Tick, lines: &Lines, safe_until: Tick) -> Ask
        requires { until.0 ≤ MOST }
        ensures { LookRunToAsk transitions until.0 (shown_lines lines.now safe_until.0) (state self.old) result (state self.new) }
    {
        loop {
            match self.advance(until) {
                Ask::Nothing => return Ask::Nothing,
                Ask::Access(tick, op) => return Ask::Access(tick, op),
                Ask::Look(tick) => {
                    if safe_until.0 <= tick.0 {
                        return Ask::Look(tick);
                    }
                    self.answer(Answer::Seen(*lines));
                }
            }
        }
    }

    /// Does what `advance_seeing` does, and the accesses that the port answers. It does
    /// `advance_seeing`, `TubePort::ask` and `answer` in turn; a machine may stop at an access that
    /// the port would answer.
    fn advance_at<D: TubePort>(
        &mut self,
        until: Tick,
        lines: &Lines,
        safe_until: Tick,
        port: &mut D,
    ) -> Ask
        requires { until.0 ≤ MOST }
        ensures { let shown = shown_lines lines.now safe_until.0 in
            PortRunToAsk transitions D.answers until.0 shown (state self.old) (D.state port.old) result (state self.new) (D.state port.new) }
    {
        loop {
            let ask = self.advance_seeing(until, lines, safe_until);
            let Ask::Access(tick, op) = ask else {
                return ask;
            };
            let Some(byte) = port.ask(tick, op) else {
                return ask;
            };
            self.answer(Answer::Byte(byte));
        }
    }

    /// Does the step that asks.
    fn answer(&mut self, answer: Answer)
        requires { IsAskedFor transitions MOST (state self.old) answer }
        ensures { state self.new ≡ transitions.next (state self.old) (Some answer) };

    ghost lawful: { IsLawful transitions };

    ghost permitted: { IsPermitted transitions plays };
}
