//! The jobs of both threads.
ghost use Rattle.std.specs.Prelude.{◌≡◌};
ghost use Rattle.std.specs.Arc.{arc_value};
ghost use Rattle.beeb_bits.specs.declared.Side.TheVariants.{Para};
ghost use Rattle.session.specs.CodeSideAndLog.{side_and_log};
ghost use Rattle.session.specs.Work.{MayWork, HasWorked};

use crate::ahead::drive_ahead;
use crate::half::{Half, drive};
use crate::stride::Strides;
use beeb_bits::Tick;
use beeb_files::Job;
use std::alloc::Global;
use std::sync::{Arc, Wait};
use tube_cell::TubeCell;
use tube_party::{Party, Rewinds};

/// One side to be run for the ticks below `n`, at a cell that both sides hold.
#[derive(Drop)]
pub(crate) struct SideJob<M> {
    pub(crate) half: Half<M>,
    pub(crate) cell: Arc<TubeCell, Global>,
    pub(crate) n: Tick,
}

impl<M: Party + Send> Job for SideJob<M> {
    type Done = Half<M>;

    ghost may_work = { λ j. MayWork M.transitions M.plays (arc_value j.cell) j.n.0 (side_and_log M.state j.half) };

    ghost gives = { λ j r. HasWorked M.transitions j.n.0 j.half.log.keep (side_and_log M.state j.half).at (side_and_log M.state r) };

    fn work<R: Wait>(self, rt: &R) -> Half<M> {
        let SideJob { mut half, cell, n } = self;
        drive(rt, &cell, &mut half, n);
        half
    }
}

/// The parasite's side, which speculates, with room for its machine's undo notes.
#[derive(Drop)]
pub(crate) struct AheadJob<M: Rewinds> {
    pub(crate) side: SideJob<M>,
    pub(crate) past: M::Past,
    pub(crate) strides: Strides,
}

impl<M: Rewinds + Send> Job for AheadJob<M>
where
    M::Past: Send,
{
    type Done = Half<M>;

    ghost may_work = { λ j. let half = j.side.half in
        MayWork M.Party.transitions M.Party.plays (arc_value j.side.cell) j.side.n.0 (side_and_log M.Party.state half)
        × (half.pass.side ≡ Para) };

    ghost gives = { λ j r. let state = M.Party.state in
        HasWorked M.Party.transitions j.side.n.0 j.side.half.log.keep (side_and_log state j.side.half).at (side_and_log state r) };

    fn work<R: Wait>(self, rt: &R) -> Half<M> {
        let AheadJob {
            side,
            mut past,
            strides,
        } = self;
        let SideJob { mut half, cell, n } = side;
        drive_ahead(rt, &cell, &mut half, &mut past, n, strides);
        half
    }
}
