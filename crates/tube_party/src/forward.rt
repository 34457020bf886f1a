//! A party that is never rolled back.
use crate::party::{Ask, Party};
use crate::port::TubePort;
use crate::rewinds::Rewinds;
use beeb_bits::Tick;
use std::alloc::{AllocError, Global};
use tube_chip::{Answer, Lines};

/// A party that notes nothing: it never speculates, and so need never be rolled back. With it any
/// two parties can be run in two threads.
#[derive(Drop)]
pub struct Forward<P> {
    pub party: P,
}

impl<P: Party> Party for Forward<P> {
    ghost State = { P.State };

    ghost state = { λ f. P.state f.party };

    ghost transitions = { P.transitions };

    ghost plays = { P.plays };

    ghost lawful = { P.lawful };

    ghost permitted = { P.permitted };

    #[inline(always)]
    fn sees_hirq_alone(&self) -> bool {
        self.party.sees_hirq_alone()
    }

    #[inline(always)]
    fn due(&self) -> Tick {
        self.party.due()
    }

    #[inline(always)]
    fn quiet(&self) -> Tick {
        self.party.quiet()
    }

    #[inline(always)]
    fn advance(&mut self, until: Tick) -> Ask {
        self.party.advance(until)
    }

    #[inline(always)]
    fn advance_seeing(&mut self, until: Tick, lines: &Lines, safe_until: Tick) -> Ask {
        self.party.advance_seeing(until, lines, safe_until)
    }

    #[inline(always)]
    fn advance_at<D: TubePort>(
        &mut self,
        until: Tick,
        lines: &Lines,
        safe_until: Tick,
        port: &mut D,
    ) -> Ask {
        self.party.advance_at(until, lines, safe_until, port)
    }

    #[inline(always)]
    fn answer(&mut self, answer: Answer) {
        self.party.answer(answer)
    }
}

impl<P: Party> Rewinds for Forward<P> {
    type Past = ();

    ghost before = { λ _ f. f };

    fn past(_alloc: Global) -> Result<(), AllocError> {
        Ok(())
    }

    #[inline(always)]
    fn advance_noting<D: TubePort>(
        &mut self,
        _until: Tick,
        _lines: &Lines,
        _safe_until: Tick,
        _past: &mut (),
        _port: &mut D,
    ) -> Option<Ask> {
        None
    }

    fn rewind(&mut self, _past: &mut ()) {}
}
