//! Two parties on one thread.
ghost use Rattle.std.specs.Prelude.{◌≡◌, ◌≢◌, ◌≤◌, ◌<◌, ◌^◌, ◌⊎◌, true, false, All, IfOk, IfErr, IsTrue};
ghost use Rattle.tube_party.specs.Transitions.{SeesHirqAlone};
ghost use Rattle.tube_chip.specs.State.{lines_of};
ghost use Rattle.tube_party.specs.OneThread.{IsPlayed, played_of, TakeSides, AreClosedWithin};
ghost use Rattle.tube_party.specs.Turn.{IsPending, first_of, tick_of, IsSafe};
ghost use Rattle.tube_party.specs.CodeAtWork.{at_work, Acts};
ghost use Rattle.tube_party.specs.CodePassing.{chip_port_state, StaysSeen, chip_behind};
ghost use Rattle.tube_party.specs.CodeStanding.{standing_of, IsGone, IsRolledBack};
ghost use Rattle.tube_trace.specs.Entries.{IsEntry};
ghost use Rattle.tube_party.specs.Reference.{reference};
ghost use Rattle.tube_party.specs.GoingOn.{reference_from, after_entries};

use crate::chip_port::{ChipPort, passes};
use crate::cursor::is_status;
use crate::log::{Log, LogMark};
use crate::noting::{Room, note_all};
use crate::party::{Ask, MOST, Party};
use crate::port::TubePort;
use crate::rewinds::Rewinds;
use crate::stride::Stride;
use beeb_bits::{Side, Tick};
use std::alloc::Global;
use tube_chip::{Answer, Chip, Lines};
use tube_trace::Entry;

/// Two parties after a run, with the chip between them. A list has the first accesses of its side,
/// as many as were to be stored, and a count is the number of all of them.
#[derive(Drop)]
pub struct Done<H, P> {
    pub host: H,
    pub para: P,
    pub chip: Chip,
    pub host_list: Vec<Entry>,
    pub para_list: Vec<Entry>,
    pub host_count: u64,
    pub para_count: u64,
}

/// Returns the side whose ask comes first, if one asks.
fn first_of(host: Ask, para: Ask) -> Option<Side>
    ensures { result ≡ first_of host para }
{
    match (host, para) {
        (Ask::Nothing, Ask::Nothing) => None,
        (Ask::Nothing, _) => Some(Side::Para),
        (_, Ask::Nothing) => Some(Side::Host),
        (Ask::Access(t, _), Ask::Access(u, _))
        | (Ask::Access(t, _), Ask::Look(u))
        | (Ask::Look(t), Ask::Access(u, _))
        | (Ask::Look(t), Ask::Look(u)) => {
            if u < t {
                Some(Side::Para)
            } else {
                Some(Side::Host)
            }
        }
    }
}

/// Returns the tick below which the other side's looks and accesses meet the chip as it is, given
/// this party's next ask: `tie_offset` ticks after the ask, or the end of the longest run if it
/// asks nothing. `tie_offset` is 1 if the other side is first on equal ticks, and otherwise 0.
#[inline(always)]
fn lookahead(ask: Ask, tie_offset: u64) -> Tick
    ensures { IsSafe tie_offset ask result.0 }
{
    match ask {
        Ask::Nothing => Tick(MOST),
        Ask::Access(tick, _) | Ask::Look(tick) => Tick(tick.0.saturating_add(tie_offset)),
    }
}

/// Returns the tick of an ask, or 0 for `Nothing`.
#[inline(always)]
fn tick_of(ask: Ask) -> Tick
    ensures { result.0 ≡ tick_of ask }
{
    match ask {
        Ask::Nothing => Tick(0),
        Ask::Access(tick, _) | Ask::Look(tick) => tick,
    }
}

/// Does the step that asks, and keeps `lines` equal to the chip's. A look does not change the chip.
#[inline(always)]
fn act<M: Party>(
    machine: &mut M,
    side: Side,
    chip: &mut Chip,
    lines: &mut Lines,
    log: &mut Log,
    n: Tick,
    ask: Ask,
)
    requires ticks { n.0 ≤ MOST }
    requires plays { IsTrue (M.plays side) }
    requires pending { IsPending M.transitions n.0 (M.state machine.old) ask }
    requires count { log.old.count < 2 ^ 63 }
    requires kept { lines.old ≡ lines_of chip.old }
    ensures kept { lines.new ≡ lines_of chip.new }
    ensures acts { let old = at_work (M.state machine.old) chip.old log.old in
        let new = at_work (M.state machine.new) chip.new log.new in
        Acts M.transitions side log.old.keep old new }
    ensures keep { log.new.keep ≡ log.old.keep }
{
    match ask {
        Ask::Nothing => unreachable!(),
        Ask::Access(tick, op) => {
            let answer = chip.apply(side, op);
            *lines = chip.lines();
            machine.answer(Answer::Byte(answer));
            log.note(Entry {
                tick,
                side,
                op,
                answer,
            });
        }
        Ask::Look(_) => machine.answer(Answer::Seen(*lines)),
    }
}

/// Returns `true` if the party may speculate from its next ask: past a look, or past a read of its
/// status.
#[inline(always)]
fn may_go_ahead(ask: Ask, stride: &Stride) -> bool
    ensures { result ≡ true → ask ≢ Ask.Nothing }
{
    match ask {
        Ask::Nothing => false,
        Ask::Look(_) => stride.pays(),
        Ask::Access(_, op) => stride.reads() && is_status(op),
    }
}

/// Speculates from `ask` on, if the party can note its steps: past all looks below `ahead`, and
/// past status reads, if the stride allows them. Returns `true` if the party is ahead, and its next
/// ask.
#[inline(always)]
fn go_ahead<M: Rewinds>(
    machine: &mut M,
    past: &mut M::Past,
    chip_port: &mut ChipPort,
    n: Tick,
    lines: &Lines,
    ask: Ask,
    ahead: Tick,
    stride: &Stride,
) -> (bool, Ask)
    requires { n.0 ≤ MOST }
    ensures { let old = chip_port_state chip_port.old in
        let mark = M.Party.state (M.before past.new machine.new) in
        let new = standing_of result.0 result.1 mark (M.Party.state machine.new) in
        IsGone M.Party.transitions n.0 lines.now (M.Party.state machine.old) old ask new (chip_port_state chip_port.new) }
{
    chip_port.turn = Side::Para;
    chip_port.safe_until = ahead;
    chip_port.is_read = true;
    chip_port.is_open = stride.reads();
    if !may_go_ahead(ask, stride) {
        return (false, ask);
    }
    match machine.advance_noting(n, lines, ahead, past, chip_port) {
        Some(next) => (true, next),
        None => (false, ask),
    }
}

/// Returns `true` if a party is ahead, and has read the chip after `mark`, to which it can be
/// rolled back.
#[inline(always)]
fn has_read(log: &Log, mark: LogMark, is_ahead: bool) -> bool
    ensures { result ≡ false → is_ahead ≡ true → log.now.count ≡ mark.count }
{
    is_ahead && log.count != mark.count
}

/// Returns `true` if the host's next step keeps all that a party ahead of it has observed.
#[inline(always)]
fn stays(chip_port: &ChipPort, is_ahead: bool, ask: Ask) -> bool
    ensures ahead { result ≡ false → is_ahead ≡ true }
    ensures stays { result ≡ true → is_ahead ≡ true → StaysSeen chip_port.now.is_read chip_port.now.chip (chip_behind chip_port.now.chip ask) }
{
    if !is_ahead {
        return true;
    }
    match ask {
        Ask::Access(_, op) => passes(&chip_port.chip, Side::Host, chip_port.is_read, op),
        Ask::Nothing | Ask::Look(_) => true,
    }
}

/// Rolls back a party that is ahead, cuts its log to the mark, and runs it again up to tick `at`.
/// Returns the next ask.
#[inline(never)]
fn roll_back<M: Rewinds>(
    machine: &mut M,
    past: &mut M::Past,
    chip_port: &mut ChipPort,
    n: Tick,
    lines: &Lines,
    at: Tick,
    mark: LogMark,
) -> Ask
    requires { n.0 ≤ MOST }
    ensures { let from = M.Party.state (M.before past.old machine.old) in
        let old = chip_port_state chip_port.old in
        IsRolledBack M.Party.transitions n.0 lines.now at.0 mark from old result (M.Party.state machine.new) (chip_port_state chip_port.new) }
{
    machine.rewind(past);
    chip_port.para_log.cut(mark);
    chip_port.turn = Side::Para;
    chip_port.safe_until = at;
    chip_port.is_read = true;
    chip_port.is_open = true;
    machine.advance_at(n, lines, at, chip_port)
}

/// Returns the tick below which the host's looks see the present lines: `n` if the host sees its
/// own request alone and the chip enables none, and otherwise `safe_until`.
#[inline(always)]
fn seen_until<H: Party>(host: &H, chip: &Chip, n: Tick, safe_until: Tick) -> Tick
    ensures { (result ≡ safe_until) ⊎ (SeesHirqAlone H.transitions × ((chip.now).flags.q ≡ false)) }
{
    if host.sees_hirq_alone() && !chip.enables_hirq() {
        n
    } else {
        safe_until
    }
}

/// Continues with two parties at one chip for the ticks below `n`, as the reference run does from
/// where both parties are. The accesses `entries` were made before: the chip is the one after them,
/// and they count among the accesses of each side. Of each side's accesses as many are stored as
/// `room` has room for.
///
/// Both parties take turns: the one whose ask comes first does that step, and runs on to the
/// other's ask, with the accesses that leave the lines. The host also runs past looks whose lines
/// the parasite cannot change. After its turn the parasite speculates ahead of the host, and reads
/// its status registers as if the host did not change them. Before a step of the host that may
/// change what the parasite observed, the parasite is rolled back.
pub fn go_on_from<H: Party, P: Rewinds>(
    mut host: H,
    mut para: P,
    entries: &[Entry],
    n: Tick,
    room: Room<P>,
) -> Done<H, P>
    requires ticks { n.0 ≤ MOST }
    requires sides { TakeSides H.plays P.Party.plays }
    requires entries { All IsEntry entries.now }
    ensures { let w = after_entries (H.state host) (P.Party.state para) entries.now in
        IsPlayed (reference_from H.transitions P.Party.transitions w n.0) room.keep (played_of H.state P.Party.state result) }
{
    let Room {
        mut host_log,
        mut para_log,
        mut past,
        ..
    } = room;
    let chip = note_all(&mut host_log, &mut para_log, entries);
    let mut lines = chip.lines();
    let mut mark = para_log.mark();
    let mut chip_port = ChipPort {
        chip,
        host_log,
        para_log,
        turn: Side::Host,
        safe_until: Tick(0),
        is_read: false,
        is_open: false,
    };
    let mut host_ask = host.advance(n);
    let mut para_ask = para.advance(n);
    let mut is_ahead = false;
    let mut stride = Stride::new();
    while let Some(side) = first_of(host_ask, para_ask) {
        match side {
            Side::Host => {
                chip_port.is_read = has_read(&chip_port.para_log, mark, is_ahead);
                if !stays(&chip_port, is_ahead, host_ask) {
                    let at = tick_of(host_ask);
                    para_ask = roll_back(&mut para, &mut past, &mut chip_port, n, &lines, at, mark);
                    is_ahead = false;
                    stride.is_cut(at);
                    continue;
                }
                act(
                    &mut host,
                    Side::Host,
                    &mut chip_port.chip,
                    &mut lines,
                    &mut chip_port.host_log,
                    n,
                    host_ask,
                );
                chip_port.turn = Side::Host;
                chip_port.safe_until = lookahead(para_ask, 1);
                chip_port.is_open = true;
                let seen = seen_until(&host, &chip_port.chip, n, chip_port.safe_until);
                host_ask = host.advance_at(n, &lines, seen, &mut chip_port);
            }
            Side::Para => {
                stride.take_turn(is_ahead, tick_of(para_ask));
                act(
                    &mut para,
                    Side::Para,
                    &mut chip_port.chip,
                    &mut lines,
                    &mut chip_port.para_log,
                    n,
                    para_ask,
                );
                chip_port.turn = Side::Para;
                chip_port.safe_until = lookahead(host_ask, 0);
                chip_port.is_read = false;
                chip_port.is_open = true;
                let safe_until = chip_port.safe_until;
                let asked = para.advance_at(n, &lines, safe_until, &mut chip_port);
                mark = chip_port.para_log.mark();
                let ahead = stride.set_out(tick_of(asked));
                (is_ahead, para_ask) = go_ahead(
                    &mut para,
                    &mut past,
                    &mut chip_port,
                    n,
                    &lines,
                    asked,
                    ahead,
                    &stride,
                );
                stride.grow();
            }
        }
    }
    let ChipPort {
        chip,
        host_log,
        para_log,
        ..
    } = chip_port;
    Done {
        host,
        para,
        chip,
        host_list: host_log.list,
        para_list: para_log.list,
        host_count: host_log.count,
        para_count: para_log.count,
    }
}

/// Runs two parties at one chip for the ticks below `n`, as the reference run does: at each tick
/// the host's step, if it is due, and then the parasite's. The first `keep` accesses of each side
/// are stored. All memory is taken before the first step.
///
/// # Errors
/// Out of memory: both parties are returned as they were.
pub fn solo<H: Party, P: Rewinds>(
    alloc: Global,
    host: H,
    para: P,
    n: Tick,
    keep: u32,
) -> Result<Done<H, P>, (H, P)>
    requires ticks { n.0 ≤ MOST }
    requires sides { TakeSides H.plays P.Party.plays }
    requires closed { AreClosedWithin H.transitions P.Party.transitions (H.state host) (P.Party.state para) n.0 }
    ensures played { let w = reference H.transitions P.Party.transitions (H.state host) (P.Party.state para) n.0 in
        IfOk result (λ d. IsPlayed w keep (played_of H.state P.Party.state d)) }
    ensures back { IfErr result (λ b. (b.0 ≡ host) × (b.1 ≡ para)) }
{
    match Room::new(alloc, keep) {
        Ok(room) => Ok(go_on_from(host, para, &[], n, room)),
        Err(_) => Err((host, para)),
    }
}
