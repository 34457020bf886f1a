//! A party that records the starts of chosen instructions.
ghost use Rattle.std.specs.Prelude.{◌≡◌, ◌≤◌, length};

use crate::notes::Notes;
use crate::seen::Seen;
use crate::start::start_of;
use beeb_bits::Tick;
use tube_chip::{Answer, Lines};
use tube_party::{Ask, MOST, Party};

/// A party with notes of the chosen starts from which it did a step. Its steps are the party's, so
/// a replay of it is a replay of the party.
#[derive(Drop)]
pub(crate) struct Watcher<M: Seen> {
    pub(crate) machine: M,
    pub(crate) notes: Notes,
    ghost few: { length notes.trail.starts ≤ M.steps.due (M.inside machine) },
}

impl<M: Seen> Watcher<M> {
    ghost use Rattle.std.specs.Prelude.{ℕ};
    ghost use Rattle.tube_party.specs.Transitions.{Looks, shown_lines};
    ghost use Rattle.follow.specs.CodeNotes.{kept_of};
    ghost use Rattle.follow.specs.CodeWatched.{order, watched_of, watched_transitions};

    // Runs past starts that are neither chosen nor counted, if there are any.
    #[inline(always)]
    fn skip_over(&mut self, until: Tick, lines: &Lines, safe_until: Tick)
        requires { until.0 ≤ MOST }
        ensures { let transitions = watched_transitions M.steps M.sights in
            let old_kept = kept_of self.old.notes.trail.starts self.old.notes.before self.old.notes.counted.starts in
            let new_kept = kept_of self.new.notes.trail.starts self.new.notes.before self.new.notes.counted.starts in
            let old = watched_of (M.inside self.old.machine) (order self.old.notes.part self.old.notes.choice) old_kept in
            let new = watched_of (M.inside self.new.machine) (order self.new.notes.part self.new.notes.choice) new_kept in
            (k : ℕ) × Looks transitions until.0 (shown_lines lines.now safe_until.0) k old new }
    {
        if let Some(skip) = self.notes.skip(self.machine.due().0) {
            self.machine.skip_while(until, lines, safe_until, skip);
        }
    }
}

impl<M: Seen> Party for Watcher<M> {
    ghost use Rattle.follow.specs.CodeNotes.{kept_of};
    ghost use Rattle.follow.specs.CodeWatched.{Watched, order, watched_of, watched_transitions, watched_lawful};

    ghost State = { Watched M.Inside };

    ghost state = { λ w. watched_of (M.inside w.machine) (order w.notes.part w.notes.choice) (kept_of w.notes.trail.starts w.notes.before w.notes.counted.starts) };

    ghost transitions = { watched_transitions M.steps M.sights };

    ghost plays = { M.plays };

    ghost lawful = { watched_lawful M.steps M.sights M.seen };

    ghost permitted = { λ w side plays. M.may_ask w.now side plays };

    #[inline(always)]
    fn due(&self) -> Tick {
        self.machine.due()
    }

    #[inline(always)]
    fn advance(&mut self, until: Tick) -> Ask {
        if !self.machine.starting() {
            return self.machine.advance(until);
        }
        let before = self.machine.due().0;
        let start = start_of(&self.machine, self.notes.choice.watch);
        let ask = self.machine.advance(until);
        // No step was done if it lies past the end, or if the opcode comes from the Tube.
        if before < self.machine.due().0 {
            self.notes.note(&start);
        }
        ask
    }

    // If few starts are chosen, most are skipped.
    fn advance_seeing(&mut self, until: Tick, lines: &Lines, safe_until: Tick) -> Ask {
        loop {
            self.skip_over(until, lines, safe_until);
            match self.advance(until) {
                Ask::Nothing => return Ask::Nothing,
                Ask::Access(tick, op) => return Ask::Access(tick, op),
                Ask::Look(tick) => {
                    if safe_until.0 <= tick.0 {
                        return Ask::Look(tick);
                    }
                    self.answer(Answer::Seen(*lines));
                }
            }
        }
    }

    #[inline(always)]
    fn answer(&mut self, answer: Answer) {
        if !self.machine.starting() {
            self.machine.answer(answer);
            return;
        }
        let begun = start_of(&self.machine, self.notes.choice.watch);
        self.machine.answer(answer);
        self.notes.note(&begun);
    }
}
