//! Both machines in two threads, compared with one thread.
ghost use Rattle.std.specs.Prelude.{false};

use super::scene::all_hold;
use beeb_files::{Crew, Pairing};
use std::hint;
use std::sync::atomic::{AtomicBool, Ordering};
use std::test::Fail;

const SCENES: &str = "\
# A run writes the files of one thread: 49 and 3 lines of the trace, of 20 bytes for a read or a write.
plugs none
os letters
tube letters
top solo 2000 o %
= 0
do same 2000 o %
size o.trace 980
## Where a put fails, the files before it are whole.
fails - 2
run 2000 o %
= 5 cannot write o.para
same o.report o.host
none o.para o.trace
fails - -
top solo --keep 3 2000 o %
= 0
do same --keep 3 2000 o %
size o.trace 60
## Without a thread it writes nothing.
alone run 2000 o %
= 6 no thread
none o.report o.host o.para o.trace
# Programs that run for long beside each other: many of these runs end in the midst of what is done ahead.
plugs none
## A second processor that leaves the Tube alone.
part counts
do tube
| start: LDX #0
| next: INC &70
| LDA &70
| PHA
| STA &2000,X
| PLA
| INX
| JMP next
do begin
end
## It pushes without end, so that each cycle but few is a write.
part pushes
do tube
| start: LDA #1
| next: PHA
* 7 | PHA
| ADC #13
| JMP next
do begin
end
part code
do tube
| start: LDX #64
| copy: LDA &F7FF,X
| STA &F7FF,X
| DEX
| BNE copy
end
## It polls the status of register 1 without end, and takes what comes.
part polls
do code
| poll: BIT &FEF8
| BPL poll
| LDA &FEF9
| PHA
| JMP poll
do begin
end
## It works, and is interrupted by each byte in register 1, which it takes. Its vectors come to the RAM with the rest.
part serves
do tube
| start: LDX #255
| TXS
| INX
| copy: LDA &F800,X
| STA &F800,X
| LDA &FF00,X
| STA &FF00,X
| INX
| BNE copy
| LDA &FEF8
| CLI
| next: INC &70
| LDA &70
| STA &2000,X
| INX
| JMP next
| irq: PHA
| LDA &FEF9
| STA &71
| INC &72
| PLA
| RTI
| org &FFFA
| word start, start, irq
end
## It sends a byte where register 1 has room, and works between two bytes.
part fills
do code
| send: BIT &FEF8
| BVC send
| STX &FEF9
| LDY #16
| work: DEY
| BNE work
| INX
| JMP send
do begin
end
part beside
top solo {1} o %
= 0
do same {1} o %
end
## It resets the second processor again and again, now and then in the midst of an opcode.
do os
| start: LDY #3
| again: LDA #&A0
| STA &FEE0
| INC &70
| LDA #&20
| STA &FEE0
| LDX #200
| wait: DEX
| BNE wait
| DEY
| BNE again
| LDX #7
| more: DEX
| BNE more
| JMP start
do begin
do counts
do beside 40000
do pushes
do beside 30001
do polls
do beside 33333
## It resets the second processor once and never lets it go.
do os
| start: LDX #0
| wait: DEX
| BNE wait
| LDA #&A0
| STA &FEE0
| here: INC &70
| JMP here
do begin
do counts
do beside 20000
do polls
do beside 20001
## A host that leaves the Tube alone.
do os
| start: LDX #0
| next: LDA &20F0,X
| ADC &70
| STA &70
| STA &20F0,X
| INX
| JMP next
do begin
do pushes
do beside 60000
do polls
do beside 20000
do counts
do beside 40009
## It puts a byte into register 1 now and then.
do os
| start: LDX #0
| wait: DEX
| BNE wait
| INC &70
| LDA &70
| STA &FEE1
| JMP wait
do begin
do pushes
do beside 40003
do polls
do beside 40001
## It puts a byte into register 1 each 150 microseconds, from its own timer's interrupt; I is set, so that each interrupts the second processor.
do os
| start: LDX #255
| TXS
| LDA #&82
| STA &FEE0
| LDA #&40
| STA &FE4B
| LDA #&94
| STA &FE44
| LDA #0
| STA &FE45
| LDA #&C0
| STA &FE4E
| CLI
| next: INC &70
| JMP next
| irq: PHA
| LDA &FE44
| LDA &70
| STA &FEE1
| PLA
| RTI
| org &FFFA
| word start, start, irq
do serves
do beside 60000
do polls
do beside 30007
## It takes what comes in register 1, and keeps it.
do os
| start: LDX #0
| wait: BIT &FEE0
| BPL wait
| LDA &FEE1
| STA &2000,X
| INX
| JMP wait
do begin
do fills
do beside 30011
";

#[test]
fn runs_write_the_files_of_solo(rt: HostRuntime) -> Result<(), Fail> {
    all_hold(&rt, rt.alloc(), SCENES)
}

// A crew that spins between the start of the first job and the second.
#[derive(Drop)]
pub(crate) struct SlowCrew {
    faults: u64,
    pairs: u64,
    // True until the spinning is over; then, true if the first job has ended.
    early: AtomicBool,
}

impl SlowCrew {
    pub(crate) fn make() -> SlowCrew {
        SlowCrew {
            faults: 0,
            pairs: 0,
            early: AtomicBool::new(true),
        }
    }

    // Returns true if the second job was started, and the first had not ended when the spinning was
    // over.
    pub(crate) fn waited(&self) -> bool {
        self.pairs == 1 && self.faults == 0 && !self.early.load(Ordering::SeqCst)
    }
}

impl Crew for SlowCrew {
    ghost use Rattle.beeb_files.specs.Crew.{Counts};

    ghost counts = { λ c. record { faults = c.faults; pairs = c.pairs } };

    ghost refuses = { λ _. false };

    fn starts(&mut self, _call: &Pairing) -> bool {
        true
    }

    fn between(&self, _call: &Pairing, ended: &AtomicBool) {
        for _ in 0..10_000_000u32 {
            hint::spin_loop();
        }
        self.early
            .store(ended.load(Ordering::SeqCst), Ordering::SeqCst);
    }

    fn count_fault(&mut self, _call: &Pairing) {
        self.faults = self.faults.saturating_add(1);
    }

    fn count_pair(&mut self, _call: &Pairing) {
        self.pairs = self.pairs.saturating_add(1);
    }
}

const WAITS: &str = "\
# The first job waits for the second.
plugs none
os letters
tube letters
slow run 2000 o %
= 0
at o.host 0070 48 49
";

#[test]
fn first_job_waits(rt: HostRuntime) -> Result<(), Fail> {
    all_hold(&rt, rt.alloc(), WAITS)
}
