//! The step from one cycle to the next.
ghost use Rattle.std.specs.Prelude.{◌≡◌, ◌≢◌, ◌≤◌, true};
ghost use Rattle.cpu_core.specs.Accesses.{idle, with_low, second, lasts_longer, last_place};
ghost use Rattle.cpu_core.specs.Results.{masked_flags, to_vector};
ghost use Rattle.cpu_core.specs.CodePhases.{is_later, is_rare};
ghost use Rattle.cpu_core.specs.CodeTies.{GoesOn, Steps};

use crate::progress::{Access, Phase, Progress};
use cpu_alu::{
    DECIMAL, INTERRUPT, PULLED, PUSHED_BY_INTERRUPT, PUSHED_BY_PROGRAM, Regs, crosses_page,
    in_zero_page, with_flag, word, wrapping_sum,
};
use op_table::{Mnemonic, Mode, Part};

/// Returns the address of the last byte of an instruction that reads its operand.
#[inline(always)]
fn last_place(mode: Mode, r: &Regs) -> u16
    ensures { result ≡ last_place mode r.now }
{
    match mode {
        Mode::Abs | Mode::AbsX | Mode::AbsY => r.place(2),
        _ => r.place(1),
    }
}

/// Returns the address of a cycle whose byte is not used.
#[inline(always)]
fn idle(part: Part, so_far: u16, last: u16) -> u16
    ensures { result ≡ idle part so_far last }
{
    match part {
        Part::Nmos => so_far,
        Part::Cmos => last,
    }
}

/// Returns an address with the low byte of another.
#[inline(always)]
fn with_low(at: u16, low: u16) -> u16
    ensures { result ≡ with_low at low }
{
    at / 256 * 256 + low % 256
}

/// Returns the address of the second byte of a jump's pointer.
#[inline(always)]
fn second(part: Part, p: u16) -> u16
    ensures { result ≡ second part p }
{
    match part {
        Part::Nmos => with_low(p, wrapping_sum(p, 1)),
        Part::Cmos => wrapping_sum(p, 1),
    }
}

/// Returns true if a sum or a difference takes one more cycle.
#[inline(always)]
fn lasts_longer(part: Part, mnemonic: Mnemonic, r: &Regs) -> bool
    ensures { result ≡ lasts_longer part mnemonic r.now }
{
    match part {
        Part::Nmos => false,
        Part::Cmos => r.is_decimal(mnemonic),
    }
}

/// Returns the flags after an interrupt, a reset or BRK.
#[inline(always)]
fn masked(part: Part, p: u8) -> u8
    ensures { result ≡ masked_flags part p }
{
    let p = with_flag(p, INTERRUPT, true);
    match part {
        Part::Nmos => p,
        Part::Cmos => with_flag(p, DECIMAL, false),
    }
}

/// Sets the registers to those after an interrupt, a reset or BRK.
#[inline(always)]
fn go_to_vector(part: Part, r: &mut Regs, low: u8, high: u8)
    ensures { r.new ≡ to_vector part r.old low high }
{
    r.move_stack(253);
    r.p = masked(part, r.p);
    r.pc = word(low, high);
}

impl Progress {
    #[inline(never)]
    fn after_implied(&mut self, part: Part, byte: u8)
        requires { self.old.phase ≡ Phase.Implied }
        ensures { GoesOn part self.old byte self.new }
    {
        self.work.move_past(self.row.bytes);
        self.work.do_implied(self.row.mnemonic);
        self.phase = Phase::Over;
    }

    #[inline(never)]
    fn after_accumulator(&mut self, part: Part, byte: u8)
        requires { self.old.phase ≡ Phase.Accumulator }
        ensures { GoesOn part self.old byte self.new }
    {
        self.work.move_past(self.row.bytes);
        let a = self.work.a;
        self.work.do_modify(self.row.mnemonic, Mode::Acc, a);
        self.phase = Phase::Over;
    }

    /// Takes the operand to modify, which was read.
    #[inline(always)]
    fn after_old_operand(&mut self, part: Part, byte: u8)
        requires phase { self.old.phase ≡ Phase.Operand }
        requires access { self.old.start.access ≡ Access.Change }
        ensures { GoesOn part self.old byte self.new }
    {
        self.low = byte;
        self.phase = Phase::ModifyAgain;
        match part {
            Part::Nmos => {
                self.value = byte;
                self.writes = true;
            }
            Part::Cmos => self.writes = false,
        }
    }

    #[inline(always)]
    fn after_operand(&mut self, part: Part, byte: u8)
        requires { self.old.phase ≡ Phase.Operand }
        ensures { GoesOn part self.old byte self.new }
    {
        match self.start.access {
            Access::Store => {
                self.work.move_past(self.row.bytes);
                self.phase = Phase::Over;
            }
            Access::Change => self.after_old_operand(part, byte),
            Access::Load => {
                if lasts_longer(part, self.row.mnemonic, &self.work) {
                    self.low = byte;
                    let at = last_place(self.row.mode, &self.work);
                    self.read(Phase::Decimal, at);
                } else {
                    self.work.move_past(self.row.bytes);
                    self.work
                        .do_read(part, self.row.mnemonic, self.row.mode, byte);
                    self.phase = Phase::Over;
                }
            }
        }
    }

    #[inline(never)]
    fn after_modify_again(&mut self, part: Part, byte: u8)
        requires { self.old.phase ≡ Phase.ModifyAgain }
        ensures { GoesOn part self.old byte self.new }
    {
        self.value = self.work.modified(self.row.mnemonic, self.low);
        self.writes = true;
        self.phase = Phase::ModifyWrite;
    }

    #[inline(never)]
    fn after_modify_write(&mut self, part: Part, byte: u8)
        requires { self.old.phase ≡ Phase.ModifyWrite }
        ensures { GoesOn part self.old byte self.new }
    {
        self.work.move_past(self.row.bytes);
        self.work
            .do_modify(self.row.mnemonic, self.row.mode, self.low);
        self.phase = Phase::Over;
    }

    #[inline(never)]
    fn after_decimal(&mut self, part: Part, byte: u8)
        requires { self.old.phase ≡ Phase.Decimal }
        ensures { GoesOn part self.old byte self.new }
    {
        self.work.move_past(self.row.bytes);
        self.work
            .do_read(part, self.row.mnemonic, self.row.mode, self.low);
        self.phase = Phase::Over;
    }

    #[inline(never)]
    fn after_spare_last(&mut self, part: Part, byte: u8)
        requires { self.old.phase ≡ Phase.SpareLast }
        ensures { GoesOn part self.old byte self.new }
    {
        if self.low == 0 {
            self.work.move_past(self.row.bytes);
            self.work.do_implied(self.row.mnemonic);
            self.phase = Phase::Over;
        } else {
            self.low -= 1;
            self.writes = false;
        }
    }

    #[inline(always)]
    fn after_indexed_high(&mut self, part: Part, byte: u8)
        requires { self.old.phase ≡ Phase.IndexedHigh }
        ensures { GoesOn part self.old byte self.new }
    {
        let index = self.index_of();
        let a = wrapping_sum(word(self.low, byte), index as u16);
        if self.start.always || crosses_page(self.low, index) {
            self.to = a;
            let so_far = word(self.low.wrapping_add(index), byte);
            let at = idle(part, so_far, self.work.place(2));
            self.read(Phase::IndexAdded, at);
        } else {
            self.reach(a);
        }
    }

    #[inline(always)]
    fn after_indexed_pointer_high(&mut self, part: Part, byte: u8)
        requires { self.old.phase ≡ Phase.IndexedPointerHigh }
        ensures { GoesOn part self.old byte self.new }
    {
        let a = wrapping_sum(word(self.low, byte), self.work.y as u16);
        if self.start.always || crosses_page(self.low, self.work.y) {
            self.to = a;
            let so_far = word(self.low.wrapping_add(self.work.y), byte);
            let at = idle(part, so_far, self.work.place(1));
            self.read(Phase::IndexAdded, at);
        } else {
            self.reach(a);
        }
    }

    #[inline(always)]
    fn after_branch(&mut self, part: Part, byte: u8)
        requires { self.old.phase ≡ Phase.Branch }
        ensures { GoesOn part self.old byte self.new }
    {
        if self.work.takes(self.row.mnemonic) {
            self.to = self.work.target(byte);
            let at = idle(part, self.work.place(2), self.work.place(1));
            self.read(Phase::BranchTaken, at);
        } else {
            self.work.move_past(2);
            self.phase = Phase::Over;
        }
    }

    #[inline(always)]
    fn after_branch_taken(&mut self, part: Part, byte: u8)
        requires { self.old.phase ≡ Phase.BranchTaken }
        ensures { GoesOn part self.old byte self.new }
    {
        if self.to / 256 == self.work.place(2) / 256 {
            self.work.pc = self.to;
            self.phase = Phase::Over;
        } else {
            let so_far = with_low(self.work.place(2), self.to);
            let at = idle(part, so_far, self.work.place(1));
            self.read(Phase::BranchCrossed, at);
        }
    }

    #[inline(always)]
    fn after_indirect_high(&mut self, part: Part, byte: u8)
        requires { self.old.phase ≡ Phase.IndirectHigh }
        ensures { GoesOn part self.old byte self.new }
    {
        self.to = word(self.low, byte);
        match part {
            Part::Nmos => self.read(Phase::IndirectTargetLow, self.to),
            Part::Cmos => self.read_place(Phase::IndirectAgain, 2),
        }
    }

    #[inline(always)]
    fn after_indirect_indexed_high(&mut self, part: Part, byte: u8)
        requires { self.old.phase ≡ Phase.IndirectIndexedHigh }
        ensures { GoesOn part self.old byte self.new }
    {
        self.to = wrapping_sum(word(self.low, byte), self.work.x as u16);
        match part {
            Part::Nmos => self.read(Phase::IndirectTargetLow, self.to),
            Part::Cmos => self.read_place(Phase::IndirectAgain, 2),
        }
    }

    #[inline(never)]
    fn after_pull_byte(&mut self, part: Part, byte: u8)
        requires { self.old.phase ≡ Phase.PullByte }
        ensures { GoesOn part self.old byte self.new }
    {
        self.work.move_past(self.row.bytes);
        self.work.move_stack(1);
        self.work.do_pull(self.row.mnemonic, byte);
        self.phase = Phase::Over;
    }

    /// Steps from one of the rare phases.
    #[inline(never)]
    fn step_rare(&mut self, part: Part, byte: u8)
        requires going { self.old.phase ≢ Phase.Over }
        requires rare { is_rare self.old.phase ≡ true }
        ensures { Steps part self.old byte self.new }
    {
        match self.phase {
            Phase::BranchCrossed => self.jump(self.to),
            Phase::Pointer => {
                self.low = byte;
                self.read(Phase::PointerLow, byte as u16);
            }
            Phase::PointerLow => {
                self.read(Phase::AddressHigh, in_zero_page(self.low, 1));
                self.low = byte;
            }
            Phase::PointerBase => {
                self.low = byte;
                let at = idle(part, byte as u16, self.work.place(1));
                self.read(Phase::PointerIndex, at);
            }
            Phase::PointerIndex => {
                let low = in_zero_page(self.low, self.work.x as u16);
                self.read(Phase::PointerIndexedLow, low);
            }
            Phase::PointerIndexedLow => {
                let high = in_zero_page(self.low, self.work.x as u16 + 1);
                self.read(Phase::AddressHigh, high);
                self.low = byte;
            }
            Phase::Decimal => self.after_decimal(part, byte),
            Phase::IndirectLow => {
                self.low = byte;
                self.read_place(Phase::IndirectHigh, 2);
            }
            Phase::IndirectHigh => self.after_indirect_high(part, byte),
            Phase::IndirectIndexedLow => {
                self.low = byte;
                self.read_place(Phase::IndirectIndexedHigh, 2);
            }
            Phase::IndirectIndexedHigh => self.after_indirect_indexed_high(part, byte),
            Phase::IndirectAgain => self.read(Phase::IndirectTargetLow, self.to),
            Phase::IndirectTargetLow => {
                self.low = byte;
                self.read(Phase::JumpHigh, second(part, self.to));
            }
            Phase::Break => {
                self.to = 0xFFFE;
                let back = self.work.place(2);
                self.push_state(back, PUSHED_BY_PROGRAM);
            }
            Phase::InterruptPushHigh => {
                self.write_stack(Phase::InterruptPushLow, 255, self.index);
            }
            Phase::InterruptPushLow => {
                self.write_stack(Phase::InterruptPushFlags, 254, self.low);
            }
            Phase::InterruptPushFlags => self.read(Phase::VectorLow, self.to),
            Phase::VectorLow => {
                self.low = byte;
                self.read(Phase::VectorHigh, wrapping_sum(self.to, 1));
            }
            Phase::VectorHigh => {
                go_to_vector(part, &mut self.work, self.low, byte);
                self.phase = Phase::Over;
            }
            Phase::InterruptFirst => self.read(Phase::InterruptSecond, self.work.pc),
            Phase::InterruptSecond => self.push_state(self.work.pc, PUSHED_BY_INTERRUPT),
            Phase::ResetFirst => self.read(Phase::ResetSecond, self.work.pc),
            Phase::ResetSecond => self.read_stack(Phase::ResetThird, 0),
            Phase::ResetThird => self.read_stack(Phase::ResetFourth, 255),
            Phase::ResetFourth => self.read_stack(Phase::ResetFifth, 254),
            Phase::ResetFifth => {
                self.to = 0xFFFC;
                self.read(Phase::VectorLow, 0xFFFC);
            }
            Phase::SpareSecond => self.read_place(Phase::SpareLast, 2),
            Phase::SpareLast => self.after_spare_last(part, byte),
            Phase::Resume => self.read_stack(Phase::ResumeStack, 0),
            Phase::ResumeStack => self.read_stack(Phase::ResumeFlags, 1),
            Phase::ResumeFlags => {
                self.index = byte & PULLED;
                self.read_stack(Phase::ResumeLow, 2);
            }
            Phase::ResumeLow => {
                self.low = byte;
                self.read_stack(Phase::ResumeHigh, 3);
            }
            Phase::ResumeHigh => {
                self.work.p = self.index;
                self.work.move_stack(3);
                self.jump(word(self.low, byte));
            }
            // Halted
            _ => {}
        }
    }

    /// Steps from one of the phases that are not the most frequent.
    #[inline(always)]
    fn step_later(&mut self, part: Part, byte: u8)
        requires going { self.old.phase ≢ Phase.Over }
        requires later { is_later self.old.phase ≡ true }
        ensures { Steps part self.old byte self.new }
    {
        if (self.phase as u8) < Phase::CallPushLow as u8 {
            if (self.phase as u8) < Phase::PullStack as u8 {
                match self.phase {
                    Phase::Push => {
                        let value = self.work.pushed(self.row.mnemonic);
                        self.write_stack(Phase::PushByte, 0, value);
                    }
                    Phase::PushByte => {
                        self.work.move_past(self.row.bytes);
                        self.work.move_stack(255);
                        self.phase = Phase::Over;
                    }
                    // Pull
                    _ => self.read_stack(Phase::PullStack, 0),
                }
            } else if (self.phase as u8) < Phase::CallLow as u8 {
                match self.phase {
                    Phase::PullStack => self.read_stack(Phase::PullByte, 1),
                    Phase::PullByte => self.after_pull_byte(part, byte),
                    // Accumulator
                    _ => self.after_accumulator(part, byte),
                }
            } else {
                match self.phase {
                    Phase::CallLow => {
                        self.low = byte;
                        self.read_stack(Phase::CallStack, 0);
                    }
                    Phase::CallStack => {
                        let high = (self.work.place(2) / 256) as u8;
                        self.write_stack(Phase::CallPushHigh, 0, high);
                    }
                    // CallPushHigh
                    _ => {
                        let low = (self.work.place(2) % 256) as u8;
                        self.write_stack(Phase::CallPushLow, 255, low);
                    }
                }
            }
        } else if (self.phase as u8) < Phase::ReturnTarget as u8 {
            if (self.phase as u8) < Phase::ReturnStack as u8 {
                match self.phase {
                    Phase::CallPushLow => self.read_place(Phase::CallHigh, 2),
                    Phase::CallHigh => {
                        self.work.move_stack(254);
                        self.jump(word(self.low, byte));
                    }
                    // Return
                    _ => self.read_stack(Phase::ReturnStack, 0),
                }
            } else {
                match self.phase {
                    Phase::ReturnStack => self.read_stack(Phase::ReturnLow, 1),
                    Phase::ReturnLow => {
                        self.low = byte;
                        self.read_stack(Phase::ReturnHigh, 2);
                    }
                    // ReturnHigh
                    _ => self.read(Phase::ReturnTarget, word(self.low, byte)),
                }
            }
        } else if (self.phase as u8) < Phase::ModifyAgain as u8 {
            if (self.phase as u8) < Phase::IndexedPointer as u8 {
                match self.phase {
                    Phase::ReturnTarget => {
                        self.work.move_stack(2);
                        self.jump(wrapping_sum(self.at, 1));
                    }
                    Phase::JumpLow => {
                        self.low = byte;
                        self.read_place(Phase::JumpHigh, 2);
                    }
                    // JumpHigh
                    _ => self.jump(word(self.low, byte)),
                }
            } else {
                match self.phase {
                    Phase::IndexedPointer => {
                        self.low = byte;
                        self.read(Phase::IndexedPointerLow, byte as u16);
                    }
                    Phase::IndexedPointerLow => {
                        self.read(Phase::IndexedPointerHigh, in_zero_page(self.low, 1));
                        self.low = byte;
                    }
                    // IndexedPointerHigh
                    _ => self.after_indexed_pointer_high(part, byte),
                }
            }
        } else if (self.phase as u8) < Phase::BranchCrossed as u8 {
            match self.phase {
                Phase::ModifyAgain => self.after_modify_again(part, byte),
                Phase::ModifyWrite => self.after_modify_write(part, byte),
                // ZeroPageBase
                _ => {
                    self.to = in_zero_page(byte, self.index_of() as u16);
                    let at = idle(part, byte as u16, self.work.place(1));
                    self.read(Phase::IndexAdded, at);
                }
            }
        } else {
            self.step_rare(part, byte)
        }
    }

    /// Ends the cycle in progress with `byte`. The phase is found by comparisons with the order of
    /// the phases, which take less time than a mispredicted jump through a table. The compiler
    /// would make such a table of four equality tests in a row.
    #[inline(always)]
    pub(crate) fn step(&mut self, part: Part, byte: u8)
        requires going { self.old.phase ≢ Phase.Over }
        ensures { Steps part self.old byte self.new }
    {
        if (self.phase as u8) < Phase::ZeroPage as u8 {
            match self.phase {
                Phase::Opcode => self.decode(part, byte),
                // Operand
                _ => self.after_operand(part, byte),
            }
        } else if (self.phase as u8) < Phase::Implied as u8 {
            match self.phase {
                Phase::ZeroPage => self.reach(byte as u16),
                Phase::AbsoluteLow => {
                    self.low = byte;
                    self.read_place(Phase::AddressHigh, 2);
                }
                // AddressHigh
                _ => self.reach(word(self.low, byte)),
            }
        } else if (self.phase as u8) < Phase::IndexedLow as u8 {
            match self.phase {
                Phase::Implied => self.after_implied(part, byte),
                Phase::Branch => self.after_branch(part, byte),
                // BranchTaken
                _ => self.after_branch_taken(part, byte),
            }
        } else if (self.phase as u8) < Phase::Push as u8 {
            match self.phase {
                Phase::IndexedLow => {
                    self.low = byte;
                    self.read_place(Phase::IndexedHigh, 2);
                }
                Phase::IndexedHigh => self.after_indexed_high(part, byte),
                // IndexAdded
                _ => self.reach(self.to),
            }
        } else {
            self.step_later(part, byte)
        }
    }
}
