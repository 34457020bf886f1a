//! The start of an instruction, as a listing shows it.
ghost use Rattle.std.specs.Prelude.{◌≡◌, ◌+◌, ◌≤◌, length};
ghost use Rattle.follow.specs.Start.{byte_at, watched_byte, start_of};
ghost use Rattle.follow.specs.CodeStart.{start_seen, code_seen};

use crate::seen::Seen;
use cpu_alu::Regs;

/// The start of an instruction: its tick, the registers, up to three bytes from the program counter
/// on, before the first that is not in memory, and the watched byte.
#[derive(Clone, Copy, Drop)]
pub(crate) struct Start {
    pub(crate) tick: u64,
    pub(crate) regs: Regs,
    pub(crate) first: Option<u8>,
    pub(crate) second: Option<u8>,
    pub(crate) third: Option<u8>,
    pub(crate) watched: Option<u8>,
}

// Returns the byte `far` addresses after `at`, or `None` past FFFF.
#[inline(always)]
fn byte_behind<M: Seen>(machine: &M, at: u16, far: u16) -> Option<u8>
    ensures { result ≡ byte_at (M.sights (M.inside machine.now)).peek (at + far) }
{
    match at.checked_add(far) {
        Some(at) => machine.peek(at),
        None => None,
    }
}

// Returns the watched byte, if there is one.
#[inline(always)]
fn watched_byte<M: Seen>(machine: &M, watch: Option<u16>) -> Option<u8>
    ensures { result ≡ watched_byte watch (M.sights (M.inside machine.now)).peek }
{
    match watch {
        Some(at) => machine.peek(at),
        None => None,
    }
}

/// Returns the start of the instruction that the machine is about to begin.
#[inline(always)]
pub(crate) fn start_of<M: Seen>(machine: &M, watch: Option<u16>) -> Start
    ensures told { start_seen result ≡ start_of M.steps M.sights watch (M.inside machine.now) }
    ensures within { (result.regs).pc + length (code_seen result) ≤ 65536 }
{
    let regs = machine.regs();
    Start {
        tick: machine.due().0,
        regs,
        first: byte_behind(machine, regs.pc, 0),
        second: byte_behind(machine, regs.pc, 1),
        third: byte_behind(machine, regs.pc, 2),
        watched: watched_byte(machine, watch),
    }
}
