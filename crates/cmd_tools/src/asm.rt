//! `asm PART SOURCE OUT` and `dis PART IMAGE ORIGIN OUT`.
ghost use Rattle.std.specs.Prelude.{◌≡◌};
ghost use Rattle.cmd_stages.specs.declared.stop.Refusal.TheVariants as refusals;
ghost use Rattle.cmd_status.specs.declared.status.Cause.TheVariants.{BadSource};
ghost use Rattle.cmd_tools.specs.Asm.{refusal_of, asm_after, dis_after};
ghost use Rattle.cmd_outcome.specs.View.{verdict_of};
ghost use Rattle.cmd_stages.specs.View.{Gives};

use asm65::{AsmError, assemble};
use bus_plug::BusDevice;
use cmd_outcome::{Outcome, file_outcome};
use cmd_stages::Refusal;
use cmd_status::{Cause, Which};
use dis65::disassemble;
use op_table::Part;
use std::alloc::Global;

fn bad_source(line: u64, kind: u8) -> Refusal<Cause>
    ensures { result ≡ refusals.Cause (BadSource line kind) }
{
    Refusal::Cause(Cause::BadSource { line, kind })
}

// Returns the refusal for an error of the assembler.
fn refusal_of(error: AsmError) -> Refusal<Cause>
    ensures { result ≡ refusal_of error }
{
    match error {
        AsmError::Syntax { line } => bad_source(line, 1),
        AsmError::NoSuchForm { line } => bad_source(line, 2),
        AsmError::UnknownLabel { line } => bad_source(line, 3),
        AsmError::Repeated { line } => bad_source(line, 4),
        AsmError::OutOfRange { line } => bad_source(line, 5),
        AsmError::TooLong { line } => bad_source(line, 6),
        AsmError::NoMemory => Refusal::NoMemory,
    }
}

/// Makes the outcome of assembling a source text.
#[tactic(auto, unfolding(crate::specs::Asm::asm_after))]
pub fn asm_outcome<'a, D: BusDevice>(
    alloc: Global,
    part: Part,
    out: &'a str,
    text: &[u8],
) -> Result<Outcome<'a, D>, Refusal<Cause>>
    ensures told { Gives (verdict_of D.plug) result (asm_after part out.now text.now) }
{
    match assemble(alloc, part, text) {
        Ok(image) => Ok(file_outcome(alloc, out, image.bytes)?),
        Err(error) => Err(refusal_of(error)),
    }
}

/// Makes the outcome of disassembling an image.
#[tactic(auto, unfolding(crate::specs::Asm::dis_after))]
pub fn dis_outcome<'a, D: BusDevice>(
    alloc: Global,
    part: Part,
    origin: u16,
    out: &'a str,
    bytes: &[u8],
) -> Result<Outcome<'a, D>, Refusal<Cause>>
    ensures told { Gives (verdict_of D.plug) result (dis_after part origin out.now bytes.now) }
{
    if bytes.len() > 65_536 - usize::from(origin) {
        return Err(Refusal::Cause(Cause::BadImage {
            which: Which::Image,
            len: bytes.len() as u64,
        }));
    }
    let text = disassemble(alloc, part, bytes, origin)?;
    Ok(file_outcome(alloc, out, text)?)
}
