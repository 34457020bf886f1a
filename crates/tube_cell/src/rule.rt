//! The rule that the cell's words and passes keep, and the steps on the cell.
use atomic_table::{Join, Split};
use crossbeam_utils::rule::{Outcome, Protocol};
use std::marker::{Brand, Model, PhantomData};

/// What the rule sees of a pass. No value of it is ever made.
pub struct PassView {}

impl Model for PassView {
    ghost use Rattle.tube_cell.specs.Views.{View};
    ghost use Rattle.tube_cell.specs.Rules.{whole};

    ghost Value = { View };

    ghost view = { λ _. whole };
}

/// The rule: the words represent two event lists whose merge is legal, and no pass knows more than
/// is true.
pub struct CellRule;

impl Protocol<[u64; 9], PassView> for CellRule {
    ghost use Rattle.tube_cell.specs.Rules.{CellInvariant, whole};

    ghost holds = { CellInvariant };

    ghost first = { whole };
}

/// What an exchange does: `events` join the list and `next` are the new words. No value of it
/// exists: the proof of a call supplies it. The code of the call names `Brand` in its place.
pub trait GhostUpdate {
    ghost use Rattle.std.specs.Prelude.{List};
    ghost use Rattle.tube_chip.specs.Events.{Event};
    ghost use Rattle.tube_cell.specs.Views.{CellSnapshot};

    ghost events: { List Event };

    ghost next: { CellSnapshot };
}

impl GhostUpdate for Brand {
    ghost use Rattle.std.specs.Prelude.{[]};
    ghost use Rattle.tube_cell.specs.Views.{new_snapshot};

    ghost events = { [] };

    ghost next = { new_snapshot };
}

/// Events that a machine did without the cell, which join the unpublished events or, speculatively,
/// the list. The proof of a call supplies them, as for `GhostUpdate`.
pub trait GhostEvents {
    ghost use Rattle.std.specs.Prelude.{List};
    ghost use Rattle.tube_chip.specs.Events.{Event};

    ghost events: { List Event };
}

impl GhostEvents for Brand {
    ghost use Rattle.std.specs.Prelude.{[]};

    ghost events = { [] };
}

/// The tick of a look. The proof of a call supplies it, as for `GhostUpdate`.
pub trait GhostTick {
    ghost use Rattle.std.specs.Prelude.{ℕ};

    ghost tick: { ℕ };
}

impl GhostTick for Brand {
    ghost tick = { 0 };
}

/// A load, after which the pass knows the words.
pub struct Learning;

impl Outcome<[u64; 9], PassView> for Learning {
    ghost use Rattle.tube_cell.specs.Rules.{Finds};

    ghost then = { Finds };
}

/// An exchange: a raise without an event, or a commit of an access.
pub struct Publishing<W> {
    update: PhantomData<W>,
}

impl<W: GhostUpdate> Outcome<[u64; 9], PassView> for Publishing<W> {
    ghost use Rattle.tube_cell.specs.Rules.{Publishes};

    ghost then = { Publishes W.events W.next };
}

/// An exchange that puts events onto the parasite's list speculatively.
pub struct Speculating<W> {
    update: PhantomData<W>,
}

impl<W: GhostUpdate> Outcome<[u64; 9], PassView> for Speculating<W> {
    ghost use Rattle.tube_cell.specs.Rules.{Speculates};

    ghost then = { Speculates W.events W.next };
}

/// An exchange that publishes events of the parasite and puts later ones onto its list
/// speculatively.
pub struct PublishingAndSpeculating<W, D> {
    update: PhantomData<W>,
    events: PhantomData<D>,
}

impl<W: GhostUpdate, D: GhostEvents> Outcome<[u64; 9], PassView>
    for PublishingAndSpeculating<W, D> {
    ghost use Rattle.tube_cell.specs.Rules.{PublishesAndSpeculates};

    ghost then = { PublishesAndSpeculates W.events D.events W.next };
}

/// A load that adds a look to the list if the words admit it.
pub struct Looking<M> {
    tick: PhantomData<M>,
}

impl<M: GhostTick> Outcome<[u64; 9], PassView> for Looking<M> {
    ghost use Rattle.tube_cell.specs.Rules.{Looks};

    ghost then = { Looks M.tick };
}

/// The load after both passes were joined.
pub struct Ending;

impl Outcome<[u64; 9], PassView> for Ending {
    ghost use Rattle.tube_cell.specs.Rules.{Ends};

    ghost then = { Ends };
}

/// Splits the whole into two passes, and joins them again.
pub struct Halves;

impl Split<PassView> for Halves {
    ghost use Rattle.tube_cell.specs.Rules.{host_part, para_part};

    ghost left = { host_part };

    ghost right = { para_part };
}

impl Join<PassView> for Halves {
    ghost use Rattle.tube_cell.specs.Rules.{joined_view, spent_view};

    ghost both = { joined_view };

    ghost spent = { spent_view };
}

/// Adds events to a view's unpublished ones. (The part that is split off holds nothing.)
pub struct Adding<D> {
    events: PhantomData<D>,
}

impl<D: GhostEvents> Split<PassView> for Adding<D> {
    ghost use Rattle.tube_cell.specs.Rules.{added_view, spent_view};

    ghost left = { λ v. added_view v D.events };

    ghost right = { λ v. spent_view };
}

/// Moves a view to a new pass.
pub struct Parting;

impl Split<PassView> for Parting {
    ghost use Rattle.tube_cell.specs.Rules.{spent_view};

    ghost left = { λ v. spent_view };

    ghost right = { λ v. v };
}
