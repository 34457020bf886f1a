//! The text of a run's results.
#![tactic(auto)]

ghost use Rattle.std.specs.Prelude.{◌≡◌, ◌++◌, IfOk, decimal};
ghost use Rattle.digits.specs.Hexadecimal.{hex_digits};
ghost use Rattle.report.specs.Text.{shown_flags, regs_text, line_text, count_text, option_text, text};

use beeb_bits::{NoMemory, Tick};
use cpu_alu::Regs;
use digits::{four_digits, two_digits};
use std::alloc::{AllocError, Global};

/// A machine's line: its registers, and true if it has stopped. An opcode can halt the host; the
/// Tube's reset line can hold the second processor.
#[derive(Clone, Copy, Debug, PartialEq, Eq)]
pub struct Line {
    pub regs: Regs,
    pub stopped: bool,
}

// Appends a name and a byte in two digits.
fn push_byte(text: &mut Vec<u8>, name: &[u8], n: u8) -> Result<(), AllocError>
    ensures { IfOk result (λ _. text.new.items ≡ text.old.items ++ (name.now ++ hex_digits 2 n)) }
{
    text.extend_from_slice(name)?;
    text.extend_from_slice(&two_digits(n))
}

// Appends a name and a word in four digits.
fn push_word(text: &mut Vec<u8>, name: &[u8], n: u16) -> Result<(), AllocError>
    ensures { IfOk result (λ _. text.new.items ≡ text.old.items ++ (name.now ++ hex_digits 4 n)) }
{
    text.extend_from_slice(name)?;
    text.extend_from_slice(&four_digits(n))
}

#[tactic(auto, unfolding(crate::specs::Text::regs_text))]
fn push_regs(text: &mut Vec<u8>, regs: Regs) -> Result<(), AllocError>
    ensures { IfOk result (λ _. text.new.items ≡ text.old.items ++ regs_text regs) }
{
    push_word(text, b" PC=", regs.pc)?;
    push_byte(text, b" A=", regs.a)?;
    push_byte(text, b" X=", regs.x)?;
    push_byte(text, b" Y=", regs.y)?;
    push_byte(text, b" S=", regs.s)?;
    push_byte(text, b" P=", (regs.p & 0xcf) | 0x20)
}

fn push_line(
    text: &mut Vec<u8>,
    name: &[u8],
    stop: &[u8],
    line: Option<Line>,
) -> Result<(), AllocError>
    ensures { IfOk result (λ _. text.new.items ≡ text.old.items ++ line_text name.now stop.now line) }
{
    let Some(line) = line else {
        return Ok(());
    };
    text.extend_from_slice(name)?;
    push_regs(text, line.regs)?;
    if line.stopped {
        text.extend_from_slice(stop)?;
    }
    text.push(b'\n')?;
    Ok(())
}

fn push_count(alloc: Global, text: &mut Vec<u8>, name: &[u8], n: u64) -> Result<(), AllocError>
    ensures { IfOk result (λ _. text.new.items ≡ text.old.items ++ count_text name.now n) }
{
    text.extend_from_slice(name)?;
    text.extend_from_slice(format!(in alloc; "{n}")?.as_bytes())?;
    text.push(b'\n')?;
    Ok(())
}

fn push_option(
    alloc: Global,
    text: &mut Vec<u8>,
    name: &[u8],
    n: Option<u64>,
) -> Result<(), AllocError>
    ensures { IfOk result (λ _. text.new.items ≡ text.old.items ++ option_text name.now n) }
{
    match n {
        Some(n) => push_count(alloc, text, name, n),
        None => Ok(()),
    }
}

/// Returns the report of `n` ticks: a line for each machine that is present, the number of Tube
/// accesses, the number of accesses kept, and the number of frames taken. An absent machine or
/// count has no line. P has bit 5 set and bit 4 clear.
///
/// # Errors
/// Returns an error if there is no memory for the text.
pub fn text(
    alloc: Global,
    n: Tick,
    host: Option<Line>,
    para: Option<Line>,
    tube: u64,
    kept: Option<u64>,
    frames: Option<u64>,
) -> Result<Vec<u8>, NoMemory>
    ensures { IfOk result (λ v. v.items ≡ text n.0 host para tube kept frames) }
{
    let mut text = Vec::new(alloc);
    push_count(alloc, &mut text, b"ticks ", n.0)?;
    push_line(&mut text, b"host", b" halted", host)?;
    push_line(&mut text, b"para", b" held", para)?;
    push_count(alloc, &mut text, b"tube ", tube)?;
    push_option(alloc, &mut text, b"kept ", kept)?;
    push_option(alloc, &mut text, b"frames ", frames)?;
    Ok(text)
}
