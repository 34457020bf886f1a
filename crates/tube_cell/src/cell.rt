//! The cell that both sides share.
ghost use Rattle.std.specs.Prelude.{ℕ, ◌≡◌, ◌≢◌, ◌+◌, ◌<◌, ◌≤◌, ◌^◌, [], ◌∷◌, true, false, nat_eq, if◌then◌else◌, IfOk, IfErr, IfSome, IfNone, IsTrue, IsFalse};
ghost use lib.Pointwise.{pointwise};
ghost use Rattle.crossbeam_utils.specs.Register.{Turns, Forks, Merges};
ghost use Rattle.crossbeam_utils.specs.Seq.{cell_view, IsSamePass};
ghost use Rattle.beeb_bits.specs.declared.Side.TheVariants.{Host, Para};
ghost use Rattle.tube_chip.specs.State.{lines_of};
ghost use Rattle.tube_chip.specs.Act.{MayDo, answer_of};
ghost use Rattle.tube_chip.specs.Events.{merge, after, IsLegal};
ghost use Rattle.tube_chip.specs.Packing.{IsChip};
ghost use Rattle.tube_cell.specs.Views.{one_side, rejoined, word_of_other, other_bound, tie_offset, known_with, Admits, admits, AllBelow, words_of, shown_to, spec_horizon_after};
ghost use Rattle.tube_cell.specs.Rules.{CellInvariant, Found, published_view, speculated_view, told_view, added_view, joined_view, Ended};
ghost use Rattle.tube_cell.specs.Passes.{starts, own_horizon, Learns, access_at, lines_at, after_commit, after_raise, after_look, after_speculate, here, bound_here, after_add, after_publish};
ghost use Rattle.tube_cell.specs.Steps.{MayPublish, MayLook, MaySpeculate, MayPublishAndSpeculate, Watches, LookedAt};

use crate::local::{Readings, operate, readings_of};
use crate::rule::{
    Adding, CellRule, Ending, GhostEvents, GhostTick, GhostUpdate, Halves, Learning, Looking,
    Parting, PassView, Publishing, PublishingAndSpeculating, Speculating,
};
use crate::waker::Waker;
use crate::words::{
    bound_of, chip_of, is_admitted, next_words, power_on, renew, settle, spec_horizon_of,
    with_spec_horizon, word_of,
};
use atomic_table::{Join, Split};
use beeb_bits::{NoMemory, Side, Tick};
use crossbeam_utils::atomic::seq_cell::{Pass as Seat, RuledSeqCell};
use crossbeam_utils::rule::Outcome;
use std::alloc::Global;
use std::marker::{Brand, Model};
use std::sync::Wait;
use tube_chip::{Chip, Lines, Op, packing_is_one_to_one};

type Cell = RuledSeqCell<[u64; 9], PassView, CellRule, 9>;

/// The Tube chip and both sides' horizons, in one cell that two threads share. Contracts see its
/// identity.
///
/// A side's horizon h guarantees that its later accesses and looks are at tick h or after. The host
/// may act at any tick up to and including the parasite's horizon, the parasite at any tick below
/// the host's.
///
/// The parasite may also speculate: it puts observations (looks, and reads of its status registers)
/// onto its list, up to its speculative horizon. Its later events are at that tick or after, so the
/// host may act up to there. If the host changes what the parasite observes, the observations from
/// the host's tick on are dropped.
#[derive(Drop)]
pub struct TubeCell {
    cell: Cell,
    host_waker: Waker,
    para_waker: Waker,
}

impl Model for TubeCell {
    ghost use Rattle.atomic_table.specs.Seated.{TableId};

    ghost Value = { TableId };

    ghost view = { λ s. s.cell.table.shared.table_id };
}

/// Both sides of a new cell, before it is split. Contracts see the cell's identity.
#[derive(Drop)]
pub struct Whole {
    seat: Seat<[u64; 9], PassView>,
}

impl Model for Whole {
    ghost use Rattle.std.specs.Prelude.{◌≡◌};
    ghost use Rattle.atomic_table.specs.Seated.{TableId};
    ghost use Rattle.crossbeam_utils.specs.Seq.{cell_view};
    ghost use Rattle.tube_cell.specs.Rules.{whole};

    ghost Value = { TableId };

    ghost view = { λ s. s.seat.table_id };

    ghost invariant = { λ s. cell_view s.seat ≡ whole };
}

/// One side's pass to the cell. Contracts see its cell, its side, its events and the words that it
/// knows.
#[derive(Drop)]
pub struct Pass {
    seat: Seat<[u64; 9], PassView>,
    side: Side,
    // The words as last found or written.
    words: [u64; 9],
    // The chip of these words after the unpublished events.
    local: Chip,
    // The tick of the first unpublished event that changes what the parasite observes, or
    // `u64::MAX`: publishing lowers the speculative horizon to it.
    cut: u64,
}

impl Model for Pass {
    ghost use Rattle.crossbeam_utils.specs.Seq.{cell_view};
    ghost use Rattle.tube_cell.specs.Passes.{PassState, pass_state_of};
    ghost use Rattle.tube_cell.specs.Steps.{IsPassOf, CutIs};
    ghost use Rattle.std.specs.Prelude.{ℕ};

    ghost Value = { PassState };

    ghost view = { λ s. pass_state_of s.seat.table_id s.side (cell_view s.seat) };

    ghost invariant = { λ s. let v = cell_view s.seat in IsPassOf s.side s.words s.local v × CutIs s.side s.cut v };
}

impl TubeCell {
    /// Makes a cell with the chip at power-on and both horizons 0, and both sides of it.
    pub fn make(alloc: Global) -> Result<(TubeCell, Whole), NoMemory>
        ensures { IfOk result (λ made. made.1 ≡ made.0) }
    {
        let (cell, seat) = Cell::ruled(alloc, power_on())?;
        let both = TubeCell {
            cell,
            host_waker: Waker::new(),
            para_waker: Waker::new(),
        };
        Ok((both, Whole { seat }))
    }

    /// Returns the host's pass and the parasite's. Each has no events, and knows the chip at
    /// power-on and both horizons 0.
    pub fn split<R: Wait>(&self, _rt: &R, whole: Whole) -> (Pass, Pass)
        requires { whole ≡ self.now }
        ensures host { result.0 ≡ starts self.entry.now Host }
        ensures para { result.1 ≡ starts self.entry.now Para }
    {
        let Whole { seat } = whole;
        let mut host = seat;
        let para = part::<Halves>(&self.cell, &mut host);
        (
            Pass {
                seat: host,
                side: Side::Host,
                words: power_on(),
                local: Chip::new(),
                cut: u64::MAX,
            },
            Pass {
                seat: para,
                side: Side::Para,
                words: power_on(),
                local: Chip::new(),
                cut: u64::MAX,
            },
        )
    }

    /// Returns a side's waker.
    #[inline(always)]
    pub fn waker(&self, side: Side) -> &Waker {
        match side {
            Side::Host => &self.host_waker,
            Side::Para => &self.para_waker,
        }
    }

    // Wakes the other side if it waits and `next` admits its step or changes the speculative
    // horizon.
    #[inline(always)]
    fn signal(&self, side: Side, words: &[u64; 9], next: &[u64; 9]) {
        let other = match side {
            Side::Host => Side::Para,
            Side::Para => Side::Host,
        };
        let Some(t) = self.waker(other).tick() else {
            return;
        };
        let spec_horizon = spec_horizon_of(next);
        if spec_horizon != spec_horizon_of(words)
            || is_admitted(other, bound_of(other, next, spec_horizon), t)
        {
            self.waker(other).signal(t);
        }
    }

    /// Loads the words once; the pass then knows the words found.
    pub fn learn<R: Wait>(&self, rt: &R, pass: &mut Pass)
        requires { pass.old.cell ≡ self.now }
        ensures { Learns pass.old pass.new }
    {
        let found = load::<Learning, R>(&self.cell, rt, &mut pass.seat);
        settle(&mut pass.words, &mut pass.local, found);
    }

    /// Returns the other side's horizon, as the pass knows it.
    pub fn other(&self, pass: &Pass) -> Tick
        requires { pass.now.cell ≡ self.now }
        ensures { result.0 ≡ word_of_other pass.now.side pass.now.known }
    {
        Tick(word_of(pass.side, &pass.words))
    }

    /// Returns the other side's bound, as known, after the pass's unpublished events: its horizon;
    /// for the parasite, the later of its two horizons.
    pub fn bound(&self, pass: &Pass) -> Tick
        requires { pass.now.cell ≡ self.now }
        ensures here { result.0 ≡ bound_here pass.now }
        ensures known { pass.now.ahead ≡ [] → result.0 ≡ other_bound pass.now.side pass.now.known }
    {
        let spec_horizon = spec_horizon_of(&pass.words).min(pass.cut);
        Tick(bound_of(pass.side, &pass.words, spec_horizon))
    }

    /// Returns `true` if the bound of `bound` admits the pass's side at `t`.
    pub fn admits(&self, pass: &Pass, t: Tick) -> bool
        requires { pass.now.cell ≡ self.now }
        ensures { result ≡ admits pass.now.side (bound_here pass.now) t.0 }
    {
        is_admitted(pass.side, self.bound(pass).0, t.0)
    }

    /// Returns the lines of the local chip: the known chip after the unpublished events.
    pub fn lines(&self, pass: &Pass) -> Lines
        requires { pass.now.cell ≡ self.now }
        ensures { result ≡ lines_of (here pass.now) }
    {
        pass.local.lines()
    }

    /// Returns what the pass's side can observe of the local chip.
    pub fn readings(&self, pass: &Pass) -> Readings
        requires { pass.now.cell ≡ self.now }
        ensures { result ≡ shown_to pass.now.side (here pass.now) }
    {
        readings_of(&pass.local, pass.side)
    }

    /// Returns the parasite's speculative horizon, as the pass knows it.
    pub fn spec_horizon(&self, pass: &Pass) -> Tick
        requires { pass.now.cell ≡ self.now }
        ensures { result.0 ≡ pass.now.known.spec_horizon }
    {
        Tick(spec_horizon_of(&pass.words))
    }

    /// Sets the own horizon to `t`, by one exchange. Returns `false` only if the words differed
    /// from those that the pass knew; it then knows the words found.
    pub fn raise<R: Wait>(&self, rt: &R, pass: &mut Pass, t: Tick) -> bool
        requires cell { pass.old.cell ≡ self.now }
        requires published { pass.old.ahead ≡ [] }
        requires none_speculative { pass.old.speculative ≡ [] }
        requires later { own_horizon pass.old ≤ t.0 }
        ensures raised { IsTrue result → pass.new ≡ after_raise pass.old t.0 }
        ensures horizon { IsTrue result → own_horizon pass.new ≡ t.0 }
        ensures learns { IsFalse result → Learns pass.old pass.new }
        ensures missed { IsFalse result → pass.new.known ≢ pass.old.known }
    {
        let raised = exchange::<Brand, R>(
            &self.cell,
            rt,
            &mut pass.seat,
            pass.side,
            &pass.words,
            None,
            &pass.local,
            t.0,
            spec_horizon_of(&pass.words),
        );
        match raised {
            Ok(next) => {
                self.signal(pass.side, &pass.words, &next);
                pass.words = next;
                true
            }
            Err(found) => {
                settle(&mut pass.words, &mut pass.local, found);
                false
            }
        }
    }

    /// Does and publishes an access, by one exchange: it joins the pass's list with its answer, and
    /// the own horizon becomes `t + 1`. Returns `None` only if the words differed from those that
    /// the pass knew; it then knows the words found.
    pub fn commit<R: Wait>(&self, rt: &R, pass: &mut Pass, t: Tick, op: Op) -> Option<u8>
        requires cell { pass.old.cell ≡ self.now }
        requires published { pass.old.ahead ≡ [] }
        requires none_speculative { pass.old.speculative ≡ [] }
        requires operation { MayDo pass.old.side op }
        requires later { own_horizon pass.old ≤ t.0 }
        requires admitted { Admits pass.old.side (other_bound pass.old.side pass.old.known) t.0 }
        requires bounded { t.0 < 2 ^ 40 }
        ensures answer { IfSome result (λ byte. byte ≡ answer_of pass.old.known.chip pass.old.side op) }
        ensures committed { IfSome result (λ _. pass.new ≡ after_commit pass.old t.0 op) }
        ensures horizon { IfSome result (λ _. own_horizon pass.new ≡ t.0 + 1) }
        ensures learns { IfNone result (Learns pass.old pass.new) }
        ensures missed { IfNone result (pass.new.known ≢ pass.old.known) }
    {
        let (answer, spec_horizon) = operate(
            &mut pass.local,
            pass.side,
            op,
            t.0,
            spec_horizon_of(&pass.words),
        );
        match exchange::<Brand, R>(
            &self.cell,
            rt,
            &mut pass.seat,
            pass.side,
            &pass.words,
            Some((t.0, op)),
            &pass.local,
            t.0 + 1,
            spec_horizon,
        ) {
            Ok(next) => {
                self.signal(pass.side, &pass.words, &next);
                pass.words = next;
                Some(answer)
            }
            Err(found) => {
                renew(&mut pass.words, &mut pass.local, found);
                None
            }
        }
    }

    /// Adds a look to the pass's list, by one load, with the lines of the chip found. Returns
    /// `None` exactly if the other side's bound that was found does not admit `t`. The pass then
    /// knows the words found.
    pub fn look<R: Wait>(&self, rt: &R, pass: &mut Pass, t: Tick) -> Option<Lines>
        requires cell { pass.old.cell ≡ self.now }
        requires published { pass.old.ahead ≡ [] }
        requires none_speculative { pass.old.speculative ≡ [] }
        requires later { own_horizon pass.old ≤ t.0 }
        ensures lines { IfSome result (λ lines. lines ≡ lines_of pass.new.known.chip) }
        ensures looked { IfSome result (λ lines. Learns (after_look pass.old t.0 lines) pass.new) }
        ensures horizon { IfSome result (λ _. own_horizon pass.new ≡ t.0 + 1) }
        ensures admitted { IfSome result (λ _. Admits pass.old.side (other_bound pass.old.side pass.new.known) t.0) }
        ensures learns { IfNone result (Learns pass.old pass.new) }
        ensures refused { IfNone result (¬ Admits pass.old.side (other_bound pass.old.side pass.new.known) t.0) }
    {
        let found = load_at::<Brand, R>(&self.cell, rt, &mut pass.seat, pass.side, t.0);
        settle(&mut pass.words, &mut pass.local, found);
        let bound = bound_of(pass.side, &pass.words, spec_horizon_of(&pass.words));
        if is_admitted(pass.side, bound, t.0) {
            return Some(pass.local.lines());
        }
        None
    }

    /// Speculates up to `t`, by one exchange of the parasite's pass: the machine's observations of
    /// the known chip (`D`, supplied by the proof) join its list, and the speculative horizon
    /// becomes `t`. Returns `false` only if the words differed from those that the pass knew; it
    /// then knows the words found.
    pub fn speculate<D: GhostEvents, R: Wait>(&self, rt: &R, pass: &mut Pass, t: Tick) -> bool
        requires cell { pass.old.cell ≡ self.now }
        requires side { pass.old.side ≡ Para }
        requires published { pass.old.ahead ≡ [] }
        requires later { own_horizon pass.old ≤ t.0 }
        requires watches { Watches Para (own_horizon pass.old) pass.old.known.chip D.events t.0 }
        ensures speculated { IsTrue result → pass.new ≡ after_speculate pass.old D.events t.0 }
        ensures horizon { IsTrue result → own_horizon pass.new ≡ t.0 }
        ensures learns { IsFalse result → Learns pass.old pass.new }
        ensures missed { IsFalse result → pass.new.known ≢ pass.old.known }
    {
        match speculate_at::<Brand, R>(&self.cell, rt, &mut pass.seat, &pass.words, t.0) {
            Ok(next) => {
                self.signal(pass.side, &pass.words, &next);
                pass.words = next;
                true
            }
            Err(found) => {
                settle(&mut pass.words, &mut pass.local, found);
                false
            }
        }
    }

    /// Answers an access by the local chip. The access stays unpublished.
    pub fn act<R: Wait>(&self, _rt: &R, pass: &mut Pass, t: Tick, op: Op) -> u8
        requires cell { pass.old.cell ≡ self.now }
        requires none_speculative { pass.old.speculative ≡ [] }
        requires operation { MayDo pass.old.side op }
        requires later { own_horizon pass.old ≤ t.0 }
        requires admitted { Admits pass.old.side (bound_here pass.old) t.0 }
        requires bounded { t.0 < 2 ^ 40 }
        ensures answer { result ≡ answer_of (here pass.old) pass.old.side op }
        ensures added { pass.new ≡ after_add pass.old (access_at t.0 pass.old.side op (here pass.old) ∷ []) }
        ensures horizon { own_horizon pass.new ≡ t.0 + 1 }
    {
        let (byte, cut) = operate(&mut pass.local, pass.side, op, t.0, pass.cut);
        pass.cut = cut;
        add::<Brand>(&self.cell, &mut pass.seat, pass.side, t.0, Some(op));
        byte
    }

    /// Answers a look by the local chip. The look stays unpublished.
    pub fn see<R: Wait>(&self, _rt: &R, pass: &mut Pass, t: Tick) -> Lines
        requires cell { pass.old.cell ≡ self.now }
        requires none_speculative { pass.old.speculative ≡ [] }
        requires later { own_horizon pass.old ≤ t.0 }
        requires admitted { Admits pass.old.side (bound_here pass.old) t.0 }
        ensures lines { result ≡ lines_of (here pass.old) }
        ensures added { pass.new ≡ after_add pass.old (lines_at t.0 pass.old.side (lines_of (here pass.old)) ∷ []) }
        ensures horizon { own_horizon pass.new ≡ t.0 + 1 }
    {
        add::<Brand>(&self.cell, &mut pass.seat, pass.side, t.0, None);
        pass.local.lines()
    }

    /// Adds a machine's observations of the local chip, all below `end`, to the unpublished events.
    /// The proof supplies them, as `D`.
    pub fn see_all<D: GhostEvents, R: Wait>(&self, _rt: &R, pass: &mut Pass, _end: Tick)
        requires cell { pass.old.cell ≡ self.now }
        requires none_speculative { pass.old.speculative ≡ [] }
        requires watches { Watches pass.old.side (own_horizon pass.old) (here pass.old) D.events _end.0 }
        requires admitted { _end.0 + tie_offset pass.old.side ≤ bound_here pass.old + 1 }
        ensures added { pass.new ≡ after_add pass.old D.events }
        ensures horizon { (t : ℕ) → own_horizon pass.old ≤ t → AllBelow t D.events → own_horizon pass.new ≤ t }
        ensures here { here pass.new ≡ here pass.old }
        ensures bound { bound_here pass.new ≡ bound_here pass.old }
    {
        add::<Brand>(&self.cell, &mut pass.seat, pass.side, 0, None);
    }

    /// Publishes the unpublished events, by one exchange: they join the pass's list, the cell gets
    /// the local chip, and the own horizon becomes `h`. Returns `false` only if the words differed
    /// from those that the pass knew; it then knows the words found, and the events stay
    /// unpublished.
    pub fn publish<R: Wait>(&self, rt: &R, pass: &mut Pass, h: Tick) -> bool
        requires cell { pass.old.cell ≡ self.now }
        requires none_speculative { pass.old.speculative ≡ [] }
        requires later { own_horizon pass.old ≤ h.0 }
        ensures published { IsTrue result → pass.new ≡ after_publish pass.old h.0 }
        ensures learns { IsFalse result → Learns pass.old pass.new }
        ensures missed { IsFalse result → pass.new.known ≢ pass.old.known }
    {
        let left = spec_horizon_of(&pass.words).min(pass.cut);
        match exchange::<Brand, R>(
            &self.cell,
            rt,
            &mut pass.seat,
            pass.side,
            &pass.words,
            None,
            &pass.local,
            h.0,
            left,
        ) {
            Ok(next) => {
                self.signal(pass.side, &pass.words, &next);
                pass.words = next;
                pass.cut = u64::MAX;
                true
            }
            Err(found) => {
                settle(&mut pass.words, &mut pass.local, found);
                false
            }
        }
    }

    /// Publishes and speculates, by one exchange of the parasite's pass. The unpublished events
    /// join its list, and its horizon becomes `h`. The machine's observations of the local chip
    /// from `h` on (`D`, supplied by the proof) join the list speculatively, and the speculative
    /// horizon becomes `t`. Returns `false` only if the words differed from those that the pass
    /// knew; it then knows the words found, and the events stay unpublished.
    pub fn publish_and_speculate<D: GhostEvents, R: Wait>(
        &self,
        rt: &R,
        pass: &mut Pass,
        h: Tick,
        t: Tick,
    ) -> bool
        requires cell { pass.old.cell ≡ self.now }
        requires side { pass.old.side ≡ Para }
        requires none_speculative { pass.old.speculative ≡ [] }
        requires later { own_horizon pass.old ≤ h.0 }
        requires order { h.0 ≤ t.0 }
        requires watches { Watches Para h.0 (here pass.old) D.events t.0 }
        ensures speculated { IsTrue result → pass.new ≡ after_speculate (after_publish pass.old h.0) D.events t.0 }
        ensures horizon { IsTrue result → own_horizon pass.new ≡ t.0 }
        ensures learns { IsFalse result → Learns pass.old pass.new }
        ensures missed { IsFalse result → pass.new.known ≢ pass.old.known }
    {
        let told = publish_and_speculate_at::<Brand, D, R>(
            &self.cell,
            rt,
            &mut pass.seat,
            &pass.words,
            &pass.local,
            h.0,
            t.0,
        );
        match told {
            Ok(next) => {
                self.signal(pass.side, &pass.words, &next);
                pass.words = next;
                pass.cut = u64::MAX;
                true
            }
            Err(found) => {
                settle(&mut pass.words, &mut pass.local, found);
                false
            }
        }
    }

    /// Returns the chip at the end: the one after the merge of both passes' events. The merged list
    /// is legal.
    pub fn join<R: Wait>(&self, rt: &R, host: Pass, para: Pass) -> Chip
        requires cell { (host.cell ≡ self.now) × (para.cell ≡ self.now) }
        requires sides { (host.side ≡ Host) × (para.side ≡ Para) }
        requires published { (host.ahead ≡ []) × (para.ahead ≡ []) }
        requires none_speculative { para.speculative ≡ [] }
        ensures chip { result ≡ after (merge host.events para.events) }
        ensures legal { IsLegal (merge host.events para.events) }
    {
        let Pass {
            seat: mut whole,
            side: _,
            words: _,
            local: _,
            cut: _,
        } = host;
        let Pass {
            seat: mut worn,
            side: _,
            words: _,
            local: _,
            cut: _,
        } = para;
        take_in(&self.cell, &mut whole, &mut worn);
        let found = end_at(&self.cell, rt, &mut whole);
        chip_of(&found)
    }
}

impl Pass {
    /// Returns the side whose pass it is.
    pub fn side(&self) -> Side
        ensures { result ≡ self.now.side }
    {
        self.side
    }
}

// Adds events to the view's unpublished ones. Only the proof reads `_side`, `_tick` and `_op`: they
// name the event if it is one access or look.
fn add<D: GhostEvents>(
    cell: &Cell,
    seat: &mut Seat<[u64; 9], PassView>,
    _side: Side,
    _tick: u64,
    _op: Option<Op>,
)
    requires cell { seat.old.table_id ≡ cell.now.table.shared.table_id }
    requires role { (cell_view seat.old).role ≡ one_side _side }
    ensures cell { IsSamePass seat.old seat.new }
    ensures added { cell_view seat.new ≡ added_view (cell_view seat.old) D.events }
{
    part::<Adding<D>>(cell, seat);
}

// Publishes one access, or none, by one exchange that writes `chip` and the own horizon `word`.
// Only the proof reads `_access`, which names the event. Returns the words written, or as `Err`
// those found in place of the known ones.
fn exchange<W: GhostUpdate, R: Wait>(
    cell: &Cell,
    rt: &R,
    seat: &mut Seat<[u64; 9], PassView>,
    side: Side,
    words: &[u64; 9],
    _access: Option<(u64, Op)>,
    chip: &Chip,
    word: u64,
    spec_horizon: u64,
) -> Result<[u64; 9], [u64; 9]>
    requires cell { seat.old.table_id ≡ cell.now.table.shared.table_id }
    requires words { words.now ≡ words_of (cell_view seat.old).known }
    requires spec_horizon { let k = (cell_view seat.old).known in spec_horizon ≡ spec_horizon_after side k.chip k.spec_horizon W.events }
    requires next { W.next ≡ known_with side chip.now word (word_of_other side (cell_view seat.old).known) spec_horizon }
    requires may { MayPublish side W.events chip.now word (cell_view seat.old) }
    ensures cell { IsSamePass seat.old seat.new }
    ensures bounds { IsChip chip.now }
    ensures next { IfOk result (λ next. next ≡ words_of W.next) }
    ensures published { IfOk result (λ _. cell_view seat.new ≡ published_view (cell_view seat.old) W.events W.next) }
    ensures found { IfErr result (λ found. Found found (cell_view seat.old) (cell_view seat.new)) }
    ensures missed { IfErr result (λ found. found ≢ words.now) }
{
    packing_is_one_to_one();
    let next = next_words(side, chip, word, word_of(side, words), spec_horizon);
    match swap::<Publishing<W>, R>(cell, rt, seat, words, next) {
        Ok(_) => Ok(next),
        Err(found) => Err(found),
    }
}

// Puts events onto the parasite's list speculatively, by one exchange that sets the speculative
// horizon and keeps the known chip. Returns the words written, or as `Err` those found in place of
// the known ones.
fn speculate_at<W: GhostUpdate, R: Wait>(
    cell: &Cell,
    rt: &R,
    seat: &mut Seat<[u64; 9], PassView>,
    words: &[u64; 9],
    spec_horizon: u64,
) -> Result<[u64; 9], [u64; 9]>
    requires cell { seat.old.table_id ≡ cell.now.table.shared.table_id }
    requires words { words.now ≡ words_of (cell_view seat.old).known }
    requires next { W.next ≡ record (cell_view seat.old).known { spec_horizon = spec_horizon } }
    requires may { MaySpeculate W.events spec_horizon (cell_view seat.old) }
    ensures cell { IsSamePass seat.old seat.new }
    ensures next { IfOk result (λ next. next ≡ words_of W.next) }
    ensures speculated { IfOk result (λ _. cell_view seat.new ≡ speculated_view (cell_view seat.old) W.events W.next) }
    ensures found { IfErr result (λ found. Found found (cell_view seat.old) (cell_view seat.new)) }
    ensures missed { IfErr result (λ found. found ≢ words.now) }
{
    packing_is_one_to_one();
    let next = with_spec_horizon(words, spec_horizon);
    match swap::<Speculating<W>, R>(cell, rt, seat, words, next) {
        Ok(_) => Ok(next),
        Err(found) => Err(found),
    }
}

// Publishes events and puts later ones onto the parasite's list speculatively, by one exchange that
// writes `chip`, the own horizon `word` and the speculative horizon. Returns the words written, or
// as `Err` those found in place of the known ones.
fn publish_and_speculate_at<W: GhostUpdate, D: GhostEvents, R: Wait>(
    cell: &Cell,
    rt: &R,
    seat: &mut Seat<[u64; 9], PassView>,
    words: &[u64; 9],
    chip: &Chip,
    word: u64,
    spec_horizon: u64,
) -> Result<[u64; 9], [u64; 9]>
    requires cell { seat.old.table_id ≡ cell.now.table.shared.table_id }
    requires words { words.now ≡ words_of (cell_view seat.old).known }
    requires next { W.next ≡ known_with Para chip.now word (word_of_other Para (cell_view seat.old).known) spec_horizon }
    requires may { MayPublishAndSpeculate W.events chip.now word D.events spec_horizon (cell_view seat.old) }
    ensures cell { IsSamePass seat.old seat.new }
    ensures bounds { IsChip chip.now }
    ensures next { IfOk result (λ next. next ≡ words_of W.next) }
    ensures told { IfOk result (λ _. cell_view seat.new ≡ told_view (cell_view seat.old) W.events D.events W.next) }
    ensures found { IfErr result (λ found. Found found (cell_view seat.old) (cell_view seat.new)) }
    ensures missed { IfErr result (λ found. found ≢ words.now) }
{
    packing_is_one_to_one();
    let next = next_words(
        Side::Para,
        chip,
        word,
        word_of(Side::Para, words),
        spec_horizon,
    );
    match swap::<PublishingAndSpeculating<W, D>, R>(cell, rt, seat, words, next) {
        Ok(_) => Ok(next),
        Err(found) => Err(found),
    }
}

// Loads the words once, for a look at tick `t`.
fn load_at<M: GhostTick, R: Wait>(
    cell: &Cell,
    rt: &R,
    seat: &mut Seat<[u64; 9], PassView>,
    _side: Side,
    t: u64,
) -> [u64; 9]
    requires cell { seat.old.table_id ≡ cell.now.table.shared.table_id }
    requires tick { t ≡ M.tick }
    requires may { MayLook _side t (cell_view seat.old) }
    ensures cell { IsSamePass seat.old seat.new }
    ensures view { LookedAt t _side result (cell_view seat.old) (cell_view seat.new) }
{
    load::<Looking<M>, R>(cell, rt, seat)
}

// Moves the parasite's list into the host's pass.
fn take_in(cell: &Cell, host: &mut Seat<[u64; 9], PassView>, para: &mut Seat<[u64; 9], PassView>)
    requires host_cell { host.old.table_id ≡ cell.now.table.shared.table_id }
    requires para_cell { para.old.table_id ≡ cell.now.table.shared.table_id }
    requires host_role { (cell_view host.old).role ≡ one_side Host }
    requires para_role { (cell_view para.old).role ≡ one_side Para }
    requires none_speculative { (cell_view para.old).speculative ≡ [] }
    ensures cell { IsSamePass host.old host.new }
    ensures joined { cell_view host.new ≡ joined_view (cell_view host.old) (cell_view para.old) }
{
    // A pass that has done steps cannot be joined, so its view moves to a new pass.
    let fresh = part::<Parting>(cell, para);
    unite::<Halves>(cell, host, fresh);
}

// Loads the words once, after one pass has taken both lists.
fn end_at<R: Wait>(cell: &Cell, rt: &R, seat: &mut Seat<[u64; 9], PassView>) -> [u64; 9]
    requires cell { seat.old.table_id ≡ cell.now.table.shared.table_id }
    requires role { (cell_view seat.old).role ≡ rejoined }
    ensures { Ended (cell_view seat.old) result }
{
    load::<Ending, R>(cell, rt, seat)
}

// The steps on the cell that keep its rule, each stated once, generic in its outcome `M`. A
// caller's proof shows only its own clause: the obligations of the cell's many type parameters are
// shown here.

// Loads the words once.
fn load<M: Outcome<[u64; 9], PassView>, R: Wait>(
    cell: &Cell,
    rt: &R,
    seat: &mut Seat<[u64; 9], PassView>,
) -> [u64; 9]
    requires cell { seat.old.table_id ≡ cell.now.table.shared.table_id }
    requires rule { Turns CellInvariant seat.old.id (cell_view seat.old) (λ x. x) M.then }
    ensures cell { IsSamePass seat.old seat.new }
    ensures rule { M.then (cell_view seat.old) result result (cell_view seat.new) }
{
    cell.load_as::<M, R>(rt, seat)
}

// Does one exchange. At `Ok` the cell holds `next`; at `Err` it holds the words found, as before.
fn swap<M: Outcome<[u64; 9], PassView>, R: Wait>(
    cell: &Cell,
    rt: &R,
    seat: &mut Seat<[u64; 9], PassView>,
    words: &[u64; 9],
    next: [u64; 9],
) -> Result<[u64; 9], [u64; 9]>
    requires cell { seat.old.table_id ≡ cell.now.table.shared.table_id }
    requires rule { Turns CellInvariant seat.old.id (cell_view seat.old) (λ x. if pointwise nat_eq x words.now then next else x) M.then }
    ensures cell { IsSamePass seat.old seat.new }
    ensures hit { IfOk result (λ x. (pointwise nat_eq x words.now ≡ true) × M.then (cell_view seat.old) x next (cell_view seat.new)) }
    ensures missed { IfErr result (λ x. (pointwise nat_eq x words.now ≡ false) × M.then (cell_view seat.old) x x (cell_view seat.new)) }
{
    cell.compare_exchange_as::<M, R>(rt, seat, *words, next)
}

// Splits the view of a pass in two.
fn part<M: Split<PassView>>(
    cell: &Cell,
    seat: &mut Seat<[u64; 9], PassView>,
) -> Seat<[u64; 9], PassView>
    requires cell { seat.old.table_id ≡ cell.now.table.shared.table_id }
    requires rule { Forks CellInvariant seat.old.id (cell_view seat.old) (M.left (cell_view seat.old)) (M.right (cell_view seat.old)) }
    ensures kept { IsSamePass seat.old seat.new × (cell_view seat.new ≡ M.left (cell_view seat.old)) }
    ensures given { (result.table_id ≡ seat.old.table_id) × (cell_view result ≡ M.right (cell_view seat.old)) × (result.me.1 ≡ []) }
{
    cell.split_pass::<M>(seat)
}

// Joins a view that was split off.
fn unite<M: Join<PassView>>(
    cell: &Cell,
    seat: &mut Seat<[u64; 9], PassView>,
    other: Seat<[u64; 9], PassView>,
)
    requires cell { (seat.old.table_id ≡ cell.now.table.shared.table_id) × (other.table_id ≡ seat.old.table_id) × (other.me.1 ≡ []) }
    requires rule { Merges CellInvariant seat.old.id (cell_view seat.old) other.id (cell_view other) (M.both (cell_view seat.old) (cell_view other)) M.spent }
    ensures { IsSamePass seat.old seat.new × (cell_view seat.new ≡ M.both (cell_view seat.old) (cell_view other)) }
{
    cell.join_pass::<M>(seat, other);
}
