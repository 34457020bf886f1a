//! Operations at a pass's local chip, and what they change of the parasite's observations.
ghost use Rattle.std.specs.Prelude.{◌≡◌};
ghost use Rattle.beeb_bits.specs.declared.Side.TheVariants.{Host, Para};
ghost use Rattle.tube_chip.specs.State.{State};
ghost use Rattle.tube_chip.specs.Act.{access, MayDo, answer_of, chip_after};
ghost use Rattle.tube_cell.specs.Views.{is_observation, shown_to, readings_of, same_lines, same_readings, spec_horizon_next};

use beeb_bits::Side;
use tube_chip::{Chip, Lines, Op};

/// What a side can observe of a chip without changing it: the lines, and its status registers,
/// numbers 0, 2, 4 and 6.
#[derive(Clone, Copy, Debug, PartialEq, Eq)]
pub struct Readings {
    /// The lines.
    pub lines: Lines,
    /// The status registers, in order of their numbers.
    pub status: [u8; 4],
}

/// Returns what `side` can observe of the chip.
pub(crate) fn readings_of(chip: &Chip, side: Side) -> Readings
    ensures { result ≡ shown_to side chip.now }
{
    Readings {
        lines: chip.lines(),
        status: chip.status(side),
    }
}

fn same_lines(a: Lines, b: Lines) -> bool
    ensures { result ≡ same_lines a b }
{
    a.prst == b.prst
        && a.resets == b.resets
        && a.nmis == b.nmis
        && a.pirq == b.pirq
        && a.hirq == b.hirq
}

fn same_readings(a: Readings, b: Readings) -> bool
    ensures { (c d : State) → a ≡ readings_of c → b ≡ readings_of d → result ≡ same_readings c d }
{
    same_lines(a.lines, b.lines)
        && a.status[0] == b.status[0]
        && a.status[1] == b.status[1]
        && a.status[2] == b.status[2]
        && a.status[3] == b.status[3]
}

fn is_observation(op: Op) -> bool
    ensures { result ≡ is_observation (access op) }
{
    match op {
        Op::Read(number) => number % 2 == 0,
        Op::Write(..) | Op::Reset => false,
    }
}

// Returns the speculative horizon after an operation of the host at `tick`, given what the parasite
// could observe before and after it.
fn spec_horizon_left(before: Readings, after: Readings, tick: u64, spec_horizon: u64) -> u64
    ensures { (c d : State) → before ≡ readings_of c → after ≡ readings_of d → result ≡ spec_horizon_next Host c d tick spec_horizon }
{
    if same_readings(before, after) {
        spec_horizon
    } else {
        spec_horizon.min(tick)
    }
}

// Does an operation of the host at `tick`. Returns its answer and the speculative horizon after it.
fn host_operates(chip: &mut Chip, op: Op, tick: u64, spec_horizon: u64) -> (u8, u64)
    requires { MayDo Host op }
    ensures chip { chip.new ≡ chip_after chip.old Host op }
    ensures answer { result.0 ≡ answer_of chip.old Host op }
    ensures spec_horizon { result.1 ≡ spec_horizon_next Host chip.old chip.new tick spec_horizon }
{
    if is_observation(op) || spec_horizon <= tick {
        let answer = chip.apply(Side::Host, op);
        return (answer, spec_horizon);
    }
    let before = readings_of(chip, Side::Para);
    let answer = chip.apply(Side::Host, op);
    let after = readings_of(chip, Side::Para);
    (answer, spec_horizon_left(before, after, tick, spec_horizon))
}

/// Does an operation of `side` at `tick`. Returns its answer and the speculative horizon after it.
pub(crate) fn operate(
    chip: &mut Chip,
    side: Side,
    op: Op,
    tick: u64,
    spec_horizon: u64,
) -> (u8, u64)
    requires { MayDo side op }
    ensures chip { chip.new ≡ chip_after chip.old side op }
    ensures answer { result.0 ≡ answer_of chip.old side op }
    ensures spec_horizon { result.1 ≡ spec_horizon_next side chip.old chip.new tick spec_horizon }
{
    match side {
        Side::Host => host_operates(chip, op, tick, spec_horizon),
        Side::Para => (chip.apply(Side::Para, op), spec_horizon),
    }
}
