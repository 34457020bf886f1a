//! The notes of a replay: the lines of the chosen starts, and the counts of all counted starts.
ghost use Rattle.std.specs.Prelude.{◌≡◌, ◌+◌, ◌++◌, ◌≤◌, ◌<◌, ◌^◌, [], ◌∷◌, nat_lt, if◌then◌else◌};
ghost use Rattle.std.specs.Prelude.{false, true, ℕ, length, Option, None, Some, IfSome, IfOk, List, option_map, ◌&&◌, is_none};
ghost use Rattle.follow.specs.Listing.{start_line};
ghost use Rattle.follow.specs.Counts.{is_counted};
ghost use Rattle.follow.specs.Start.{StartState};
ghost use Rattle.follow.specs.CodeTally.{IsTallied, tally_seen, none_tallied, text_if};
ghost use Rattle.follow.specs.View.{items};
ghost use Rattle.follow.specs.CodeStart.{start_seen, code_seen};
ghost use Rattle.follow.specs.CodeNotes.{IsKept, LeavesKept, kept_of, none_kept, keep, with_if, listing_noted};
ghost use Rattle.std.proofs.Props.{props};

use crate::choice::Choice;
use crate::line::push_line;
use crate::listing::Listing;
use crate::start::Start;
use crate::tally::Tally;
use crate::trail::Trail;
use beeb_bits::Tick;
use op_table::Part;
use std::alloc::{AllocError, Global};
use tube_machine::SkipWhile;

/// The most lines of a listing.
const MOST_LINES: u64 = 1_048_576;

/// The lines and the number of the starts chosen until now, and the counts of the starts counted
/// until now.
#[derive(Drop)]
pub(crate) struct Notes {
    alloc: Global,
    pub(crate) part: Part,
    pub(crate) choice: Choice,
    text: Vec<u8>,
    // Memory for a line or for the counts ran out.
    is_short: bool,
    chosen: u64,
    // The byte watched at the last start, if there was a start.
    pub(crate) before: Option<Option<u8>>,
    // The chosen starts.
    pub(crate) trail: Trail,
    // The counts, if `--counts` is given and there was memory for them.
    tally: Option<Tally>,
    // The counted starts.
    pub(crate) counted: Trail,
    ghost kept: { IsKept part trail.starts text.items is_short chosen } by { Prim.hlevel props },
    ghost tallied: { is_short ≡ false → IsTallied choice.counts tally counted.starts } by { Prim.hlevel props },
}

// Returns an empty table of counts, or `None` if `counts` is not set or memory runs out.
fn tally_if(alloc: Global, counts: bool) -> Option<Tally>
    ensures { IfSome result (λ t. tally_seen t ≡ none_tallied) }
{
    if !counts {
        return None;
    }
    match Tally::new(alloc) {
        Ok(tally) => Some(tally),
        Err(_) => None,
    }
}

// Returns true if counts are requested and there was no memory for their table.
fn is_wanting(counts: bool, tally: &Option<Tally>) -> bool
    ensures { result ≡ (counts && is_none tally.now) }
{
    counts && tally.is_none()
}

// Returns the text of the counts at the end of the run at tick `n`, or `None` if `counts` is not
// set.
fn text_if(
    alloc: Global,
    counts: bool,
    tally: Option<Tally>,
    n: Tick,
) -> Result<Option<Vec<u8>>, AllocError>
    ensures { (starts : List StartState) → IsTallied counts tally starts → IfOk result (λ text. option_map items text ≡ text_if counts n.0 starts) }
{
    if !counts {
        return Ok(None);
    }
    match tally {
        None => Ok(None),
        Some(tally) => match tally.text(alloc, n.0) {
            Ok(text) => Ok(Some(text)),
            Err(error) => Err(error),
        },
    }
}

// Appends the line of a chosen start if the text has fewer than `MOST_LINES` lines and memory never
// ran out. Returns true if memory ran out, now or before.
fn add_line(
    alloc: Global,
    text: &mut Vec<u8>,
    part: Part,
    chosen: u64,
    start: &Start,
    is_short: bool,
) -> bool
    requires { (start.now.regs).pc + length (code_seen start.now) ≤ 65536 }
    ensures before { result ≡ false → is_short ≡ false }
    ensures text { result ≡ false → text.new.items ≡ text.old.items ++ (if nat_lt chosen 1048576 then start_line part (start_seen start.now) else []) }
{
    if is_short {
        return true;
    }
    if chosen >= MOST_LINES {
        return false;
    }
    push_line(alloc, text, part, start).is_err()
}

impl Notes {
    ghost use Rattle.follow.specs.View.{listing_seen};

    /// Returns notes without a start.
    pub(crate) fn new(alloc: Global, part: Part, choice: Choice) -> Notes
        ensures part { result.part ≡ part }
        ensures choice { result.choice ≡ choice }
        ensures none { kept_of result.trail.starts result.before result.counted.starts ≡ none_kept }
    {
        let tally = tally_if(alloc, choice.counts);
        let is_short = is_wanting(choice.counts, &tally);
        Notes {
            alloc,
            part,
            choice,
            text: Vec::new(alloc),
            is_short,
            chosen: 0,
            before: None,
            trail: Trail::new(),
            tally,
            counted: Trail::new(),
        }
    }

    // Counts `start` if its tick is one of those that are counted.
    #[inline(always)]
    fn count(&mut self, start: &Start)
        ensures counted { self.new.counted.starts ≡ with_if (is_counted self.old.choice (start.now).tick) self.old.counted.starts (start_seen start.now) }
        ensures trail { self.new.trail.starts ≡ self.old.trail.starts }
        ensures before { self.new.before ≡ self.old.before }
        ensures part { self.new.part ≡ self.old.part }
        ensures choice { self.new.choice ≡ self.old.choice }
    {
        if !self.choice.counts_at(start.tick) {
            return;
        }
        self.counted = self.counted.after(start);
        if let Some(tally) = &mut self.tally {
            tally.note(start);
        }
    }

    /// Records `start`.
    pub(crate) fn note(&mut self, start: &Start)
        requires within { (start.now.regs).pc + length (code_seen start.now) ≤ 65536 }
        requires few { length self.old.trail.starts < 2 ^ 60 }
        ensures kept { let old = kept_of self.old.trail.starts self.old.before self.old.counted.starts in
            kept_of self.new.trail.starts self.new.before self.new.counted.starts ≡ keep self.old.choice old (start_seen start.now) }
        ensures more { length self.new.trail.starts ≤ length self.old.trail.starts + 1 }
        ensures part { self.new.part ≡ self.old.part }
        ensures choice { self.new.choice ≡ self.old.choice }
    {
        self.count(start);
        let is_chosen = self
            .choice
            .chooses(self.before, start.tick, start.regs.pc, start.watched);
        self.before = Some(start.watched);
        if !is_chosen {
            return;
        }
        self.trail = self.trail.after(start);
        self.is_short = add_line(
            self.alloc,
            &mut self.text,
            self.part,
            self.chosen,
            start,
            self.is_short,
        );
        self.chosen += 1;
    }

    /// Returns starts from tick `now` on that the machine may skip: they are neither chosen nor
    /// counted, and leave these notes as they are. Returns `None` before the first start, and if
    /// all starts are chosen or counted.
    #[inline(always)]
    pub(crate) fn skip(&self, now: u64) -> Option<SkipWhile>
        ensures leaves { IfSome result (λ skip. LeavesKept self.now.choice self.now.before skip) }
        ensures same { (at : ℕ) (byte : Option ℕ) → self.now.choice.counts ≡ false → self.now.choice.watch ≡ Some at → self.now.before ≡ Some byte →
            result ≡ Some (SkipWhile.Same at byte) }
        ensures before { let choice = self.now.choice in
            choice.watch ≡ None → now < choice.from → self.now.before ≡ Some None → result ≡ Some (SkipWhile.Before choice.from) }
        ensures elsewhere { let choice = self.now.choice in
            (at : ℕ) → choice.counts ≡ false → choice.watch ≡ None → choice.from ≤ now → choice.at ≡ Some at → self.now.before ≡ Some None →
            result ≡ Some (SkipWhile.Elsewhere at) }
    {
        let Some(byte) = self.before else {
            return None;
        };
        match (self.choice.watch, self.choice.at, byte) {
            (None, _, None) if now < self.choice.from => Some(SkipWhile::Before(self.choice.from)),
            _ if self.choice.counts => None,
            (Some(watch), _, _) => Some(SkipWhile::Same(watch, byte)),
            (None, Some(at), None) => Some(SkipWhile::Elsewhere(at)),
            _ => None,
        }
    }

    /// Returns the listing of the run up to tick `n`, or `None` if memory ran out.
    pub(crate) fn finish(self, n: Tick) -> Option<Listing>
        ensures { IfSome result (λ l. listing_seen l ≡ listing_noted self.part self.choice n.0 self.trail.starts self.counted.starts) }
    {
        if self.is_short {
            return None;
        }
        let Notes {
            alloc,
            text,
            chosen,
            tally,
            choice,
            ..
        } = self;
        let counts = match text_if(alloc, choice.counts, tally, n) {
            Ok(counts) => counts,
            Err(_) => return None,
        };
        Some(Listing {
            text,
            listed: chosen.min(MOST_LINES),
            chosen,
            counts,
        })
    }
}
