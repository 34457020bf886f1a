//! What the parasite speculates and the host takes back, by the calls of the cell, with both passes
//! in one test.
ghost use Rattle.std.specs.Prelude.{◌≡◌, ◌≤◌};
ghost use Rattle.beeb_bits.specs.declared.Side.TheVariants.{Host, Para};
ghost use Rattle.tube_chip.specs.Act.{MayDo};
ghost use Rattle.tube_cell.specs.Passes.{own_horizon};
ghost use Rattle.cases_tube.specs.Hands.{IsFit};

use super::shared_cell::op_of;
use beeb_bits::{Side, Tick};
use std::alloc::Global;
use std::marker::Brand;
use std::sync::Wait;
use std::test::Fail;
use tube_cell::{Pass, TubeCell};
use tube_chip::Op;

/// An act of a side at the cell.
#[derive(Clone, Copy, Debug)]
enum Deed {
    Learn,
    /// An access at this tick, by the local chip.
    Read(u16, u8),
    Write(u16, u8, u8),
    /// The host's reset at this tick.
    Reset(u16),
    /// Its events are published, with this horizon.
    Publish(u16),
    /// It speculates that it does no look up to this tick.
    Speculate(u16),
    PublishAndSpeculate(u16, u16),
}

use Deed::{Learn, Publish, PublishAndSpeculate, Read, Reset, Speculate, Write};

const HOST: Side = Side::Host;

const PARA: Side = Side::Para;

/// The side and its act; the byte of an access, or 0 for another act, or `None` if it is not done;
/// and then the host's bound of the parasite, and the speculative horizon as the host and as the
/// parasite know it.
type Row = (Side, Deed, Option<u8>, [u16; 3]);

/// A side's pass; a tick that none of its events and not its own word are past; and true if it is
/// guaranteed to have nothing unpublished.
#[derive(Drop)]
pub struct Hand {
    pass: Pass,
    at: u64,
    is_bare: bool,
}

// Returns a lower bound of the tick of its next event.
fn earliest(cell: &TubeCell, hand: &Hand) -> u64
    requires { IsFit cell.now hand.now.pass hand.now.at hand.now.is_bare }
    ensures { own_horizon hand.now.pass ≤ result }
{
    match hand.pass.side() {
        Side::Host => hand.at,
        Side::Para => hand.at.max(cell.spec_horizon(&hand.pass).0),
    }
}

// Does an access, if it is admitted and not too early.
fn act<R: Wait>(rt: &R, cell: &TubeCell, hand: &mut Hand, t: u16, op: Op) -> Option<u8>
    requires fit { IsFit cell.now hand.old.pass hand.old.at hand.old.is_bare }
    requires operation { MayDo hand.old.pass.side op }
    ensures fit { IsFit cell.now hand.new.pass hand.new.at hand.new.is_bare }
    ensures side { hand.new.pass.side ≡ hand.old.pass.side }
{
    let t = t as u64;
    if t < earliest(cell, hand) || !cell.admits(&hand.pass, Tick(t)) {
        return None;
    }
    let byte = cell.act(rt, &mut hand.pass, Tick(t), op);
    hand.at = t + 1;
    hand.is_bare = false;
    Some(byte)
}

// Does a reset, if the side is the host.
fn reset<R: Wait>(rt: &R, cell: &TubeCell, hand: &mut Hand, t: u16) -> Option<u8>
    requires fit { IsFit cell.now hand.old.pass hand.old.at hand.old.is_bare }
    ensures fit { IsFit cell.now hand.new.pass hand.new.at hand.new.is_bare }
    ensures side { hand.new.pass.side ≡ hand.old.pass.side }
{
    match hand.pass.side() {
        Side::Host => act(rt, cell, hand, t, Op::Reset),
        Side::Para => None,
    }
}

fn publish<R: Wait>(rt: &R, cell: &TubeCell, hand: &mut Hand, h: u16) -> Option<u8>
    requires fit { IsFit cell.now hand.old.pass hand.old.at hand.old.is_bare }
    ensures fit { IsFit cell.now hand.new.pass hand.new.at hand.new.is_bare }
    ensures side { hand.new.pass.side ≡ hand.old.pass.side }
{
    let h = h as u64;
    if h < earliest(cell, hand) || !cell.publish(rt, &mut hand.pass, Tick(h)) {
        return None;
    }
    hand.at = h;
    hand.is_bare = true;
    Some(0)
}

fn speculate<R: Wait>(rt: &R, cell: &TubeCell, hand: &mut Hand, t: u16) -> Option<u8>
    requires fit { IsFit cell.now hand.old.pass hand.old.at hand.old.is_bare }
    ensures fit { IsFit cell.now hand.new.pass hand.new.at hand.new.is_bare }
    ensures side { hand.new.pass.side ≡ hand.old.pass.side }
{
    let t = t as u64;
    let Side::Para = hand.pass.side() else {
        return None;
    };
    if t < earliest(cell, hand) || !hand.is_bare {
        return None;
    }
    if !cell.speculate::<Brand, R>(rt, &mut hand.pass, Tick(t)) {
        return None;
    }
    Some(0)
}

fn publish_and_speculate<R: Wait>(
    rt: &R,
    cell: &TubeCell,
    hand: &mut Hand,
    h: u16,
    t: u16,
) -> Option<u8>
    requires fit { IsFit cell.now hand.old.pass hand.old.at hand.old.is_bare }
    ensures fit { IsFit cell.now hand.new.pass hand.new.at hand.new.is_bare }
    ensures side { hand.new.pass.side ≡ hand.old.pass.side }
{
    let (h, t) = (h as u64, t as u64);
    let Side::Para = hand.pass.side() else {
        return None;
    };
    if h < earliest(cell, hand) || t < h {
        return None;
    }
    if !cell.publish_and_speculate::<Brand, R>(rt, &mut hand.pass, Tick(h), Tick(t)) {
        return None;
    }
    hand.at = h;
    hand.is_bare = true;
    Some(0)
}

// Does a row's act. Returns its result.
fn done<R: Wait>(rt: &R, cell: &TubeCell, hand: &mut Hand, deed: Deed) -> Option<u8>
    requires fit { IsFit cell.now hand.old.pass hand.old.at hand.old.is_bare }
    ensures fit { IsFit cell.now hand.new.pass hand.new.at hand.new.is_bare }
    ensures side { hand.new.pass.side ≡ hand.old.pass.side }
{
    match deed {
        Learn => {
            cell.learn(rt, &mut hand.pass);
            Some(0)
        }
        Read(t, number) => act(rt, cell, hand, t, op_of(number, 0, false)),
        Write(t, number, byte) => act(rt, cell, hand, t, op_of(number, byte, true)),
        Reset(t) => reset(rt, cell, hand, t),
        Publish(h) => publish(rt, cell, hand, h),
        Speculate(t) => speculate(rt, cell, hand, t),
        PublishAndSpeculate(h, t) => publish_and_speculate(rt, cell, hand, h, t),
    }
}

// Returns the first row that does not hold, and its result.
fn first_wrong_row<R: Wait>(
    rt: &R,
    alloc: Global,
    rows: &[Row],
) -> Result<Option<(usize, Option<u8>, [u64; 3])>, Fail> {
    let Ok((cell, whole)) = TubeCell::make(alloc) else {
        return Err(Fail::from("no memory"));
    };
    let (host, para) = cell.split(rt, whole);
    let mut host = Hand {
        pass: host,
        at: 0,
        is_bare: true,
    };
    let mut para = Hand {
        pass: para,
        at: 0,
        is_bare: true,
    };
    for (k, &(side, deed, answer, [bound, known, own])) in rows.iter().enumerate() {
        let came = match side {
            Side::Host => done(rt, &cell, &mut host, deed),
            Side::Para => done(rt, &cell, &mut para, deed),
        };
        let ticks = [
            cell.bound(&host.pass).0,
            cell.spec_horizon(&host.pass).0,
            cell.spec_horizon(&para.pass).0,
        ];
        if came != answer || ticks != [bound as u64, known as u64, own as u64] {
            return Ok(Some((k, came, ticks)));
        }
    }
    Ok(None)
}

#[test]
fn speculation_is_taken_back_if_readings_change(rt: HostRuntime) -> Result<(), Fail> {
    // A byte in register 1 to the parasite shows in its status. A second one after it changes no
    // reading, and I then raises the interrupt. A0 and 20 to register 0 assert and release the
    // reset.
    let scenes: [&[Row]; 9] = [
        &[
            (HOST, Write(0, 1, 0x40), Some(0), [0, 0, 0]),
            (HOST, Publish(1), Some(0), [0, 0, 0]),
            (PARA, Learn, Some(0), [0, 0, 0]),
            (PARA, Speculate(100), Some(0), [0, 0, 100]),
            (HOST, Write(50, 1, 0x41), None, [0, 0, 100]),
            (HOST, Learn, Some(0), [100, 100, 100]),
            (HOST, Write(50, 1, 0x41), Some(0), [100, 100, 100]),
            (HOST, Read(55, 0), Some(0x00), [100, 100, 100]),
            (HOST, Write(60, 0, 0x82), Some(0), [60, 100, 100]),
            (HOST, Read(61, 0), None, [60, 100, 100]),
            (PARA, Learn, Some(0), [60, 100, 100]),
            (HOST, Publish(61), Some(0), [60, 60, 100]),
            (PARA, Learn, Some(0), [60, 60, 60]),
            // An access at 60 now sees the host's byte.
            (PARA, Read(61, 1), None, [60, 60, 60]),
            (PARA, Read(60, 1), Some(0x41), [60, 60, 60]),
            (PARA, Publish(61), Some(0), [60, 60, 60]),
            (HOST, Learn, Some(0), [61, 60, 60]),
        ],
        // A byte in register 2 changes no line.
        &[
            (PARA, Speculate(100), Some(0), [0, 0, 100]),
            (HOST, Learn, Some(0), [100, 100, 100]),
            (HOST, Write(50, 3, 0x41), Some(0), [50, 100, 100]),
            (HOST, Publish(51), Some(0), [50, 50, 100]),
            (PARA, Learn, Some(0), [50, 50, 50]),
            (PARA, Read(50, 2), Some(0xff), [50, 50, 50]),
        ],
        // A reset shows in the count of resets, even if there is nothing to clear.
        &[
            (PARA, Speculate(100), Some(0), [0, 0, 100]),
            (HOST, Learn, Some(0), [100, 100, 100]),
            (HOST, Reset(50), Some(0), [50, 100, 100]),
            (HOST, Publish(51), Some(0), [50, 50, 100]),
            (PARA, Learn, Some(0), [50, 50, 50]),
            (PARA, Read(50, 0), Some(0x40), [50, 50, 50]),
        ],
        // At the tick of the speculative horizon itself there is nothing to take back.
        &[
            (PARA, Speculate(100), Some(0), [0, 0, 100]),
            (HOST, Learn, Some(0), [100, 100, 100]),
            (HOST, Write(100, 0, 0xa0), Some(0), [100, 100, 100]),
            (HOST, Write(101, 0, 0x20), None, [100, 100, 100]),
            (HOST, Publish(101), Some(0), [100, 100, 100]),
            (PARA, Speculate(200), None, [100, 100, 100]),
            (PARA, Write(100, 1, 0x42), Some(0), [100, 100, 100]),
        ],
        // At its first tick all of it is taken back.
        &[
            (PARA, PublishAndSpeculate(40, 100), Some(0), [0, 0, 100]),
            (HOST, Learn, Some(0), [100, 100, 100]),
            (HOST, Write(40, 0, 0xa0), Some(0), [40, 100, 100]),
            (HOST, Publish(41), Some(0), [40, 40, 100]),
            (PARA, Learn, Some(0), [40, 40, 40]),
            (PARA, PublishAndSpeculate(40, 50), Some(0), [40, 40, 50]),
            (HOST, Learn, Some(0), [50, 50, 50]),
        ],
        // It is taken back twice.
        &[
            (PARA, Speculate(100), Some(0), [0, 0, 100]),
            (HOST, Learn, Some(0), [100, 100, 100]),
            (HOST, Write(0, 0, 0xa0), Some(0), [0, 100, 100]),
            (HOST, Publish(1), Some(0), [0, 0, 100]),
            (PARA, Speculate(200), None, [0, 0, 0]),
            (PARA, Speculate(200), Some(0), [0, 0, 200]),
            (HOST, Write(70, 0, 0x20), None, [0, 0, 200]),
            (HOST, Learn, Some(0), [200, 200, 200]),
            (HOST, Write(70, 0, 0x20), Some(0), [70, 200, 200]),
            (HOST, Publish(71), Some(0), [70, 70, 200]),
            (PARA, Learn, Some(0), [70, 70, 70]),
        ],
        // The horizon rises between the host's access and its exchange.
        &[
            (PARA, Speculate(100), Some(0), [0, 0, 100]),
            (HOST, Learn, Some(0), [100, 100, 100]),
            (HOST, Write(60, 0, 0xa0), Some(0), [60, 100, 100]),
            (PARA, Speculate(200), Some(0), [60, 100, 200]),
            (HOST, Publish(61), None, [60, 200, 200]),
            (HOST, Publish(61), Some(0), [60, 60, 200]),
            (PARA, Learn, Some(0), [60, 60, 60]),
        ],
        // Below the parasite's horizon the host continues.
        &[
            (PARA, PublishAndSpeculate(80, 100), Some(0), [0, 0, 100]),
            (HOST, Learn, Some(0), [100, 100, 100]),
            (HOST, Write(60, 0, 0xa0), Some(0), [80, 100, 100]),
            (HOST, Write(75, 0, 0x20), Some(0), [80, 100, 100]),
            (HOST, Publish(76), Some(0), [80, 60, 100]),
            (PARA, PublishAndSpeculate(100, 120), None, [80, 60, 60]),
            (PARA, Speculate(120), Some(0), [80, 60, 120]),
            (HOST, Learn, Some(0), [120, 120, 120]),
        ],
        // The parasite's events are published together with its speculative horizon.
        &[
            (HOST, Publish(60), Some(0), [0, 0, 0]),
            (PARA, Learn, Some(0), [0, 0, 0]),
            (PARA, Write(10, 1, 0x43), Some(0), [0, 0, 0]),
            (HOST, Publish(70), Some(0), [0, 0, 0]),
            (PARA, PublishAndSpeculate(20, 100), None, [0, 0, 0]),
            (PARA, PublishAndSpeculate(20, 100), Some(0), [0, 0, 100]),
            (HOST, Learn, Some(0), [100, 100, 100]),
            (HOST, Read(70, 1), Some(0x43), [100, 100, 100]),
            (HOST, Publish(101), Some(0), [100, 100, 100]),
        ],
    ];
    for (k, rows) in scenes.into_iter().enumerate() {
        assert_eq!(rt; first_wrong_row(&rt, rt.alloc(), rows)?, None, "{k}");
    }
    Ok(())
}
