//! Little transfers by polling, by NMIs and by IRQs. Their ends were worked out by hand.
use super::scene::all_hold;
use std::test::Fail;

const SCENES: &str = "\
part ends
$ solo 20000 o %
= 0
line o.report ticks 20000
line o.report host {1} {2} {3} {4} {5} {6}
line o.report para {7+}
end
part replayed
trace
$ replay host t 20000 o --os os
= 0
line o.report ticks 20000
line o.report host {1} {2} {3} {4} {5} {6}
same o.host
$ replay para t 20000 o --tube tube
= 0
line o.report ticks 20000
line o.report para {7+}
same o.para
end
part copied-all
do tube
| start: LDX #0
| copy: LDA &F800,X
| STA &F800,X
| LDA &FF00,X
| STA &FF00,X
| INX
| BNE copy
end
# Register 1 polled by both sides: five letters to the second processor, which sends each back plus one and counts them at 0080.
do os
| LDX #0
| send: BIT &FEE0
| BVC send
| LDA text,X
| STA &FEE1
| wait: BIT &FEE0
| BPL wait
| LDA &FEE1
| STA &70,X
| INX
| CPX #5
| BNE send
| here: JMP here
| text: byte &48, &45, &4C, &4C, &4F
do start C000
do copied 63
| again: BIT &FEF8
| BPL again
| LDA &FEF9
| CLC
| ADC #1
| room: BIT &FEF8
| BVC room
| STA &FEF9
| INC &80
| LDX &80
| CPX #5
| BNE again
| stop: JMP stop
do start F800
do ends PC=C01C A=50 X=05 Y=00 S=FD P=67 PC=F826 A=50 X=05 Y=00 S=FD P=67
at o.host 0070 49 46 4D 4D 50 00
at o.para 0080 05
do replayed PC=C01C A=50 X=05 Y=00 S=FD P=67 PC=F826 A=50 X=05 Y=00 S=FD P=67
# Pairs of bytes to register 3, taken by interrupts under M and V: the handler counts pairs at 0081 and bytes at 0080, and tells the host.
do os
| LDA #&98
| STA &FEE0
| LDX #0
| wait: BIT &FEE2
| BPL wait
| LDA &FEE3
| STA &70
| CPX #8
| BEQ here
| LDA bytes,X
| STA &FEE5
| INX
| LDA bytes,X
| STA &FEE5
| INX
| JMP wait
| here: JMP here
| bytes: byte &11, &22, &33, &44, &55, &66, &77, &88
do start C000
do copied-all
| STZ &FEFB
| stop: JMP stop
| taken: PHA
| PHX
| INC &81
| LDX &80
| LDA &FEFD
| STA &90,X
| INX
| LDA &FEFD
| STA &90,X
| INX
| STX &80
| STX &FEFB
| PLX
| PLA
| RTI
| org &FFFA
| word taken, start, start
do ends PC=C026 A=08 X=08 Y=00 S=FD P=67 PC=F814 A=F8 X=00 Y=00 S=FD P=26
at o.host 0070 08
at o.para 0080 08 04
at o.para 0090 11 22 33 44 55 66 77 88 00
do replayed PC=C026 A=08 X=08 Y=00 S=FD P=67 PC=F814 A=F8 X=00 Y=00 S=FD P=26
# Interrupts both ways: three bytes to register 1 under I and to register 4 under J, each of these answered by its successor, which interrupts the host under Q.
do os
| start: LDA #&87
| STA &FEE0
| CLI
| LDX #0
| next: BIT &FEE0
| BVC next
| LDA bytes,X
| STA &FEE1
| more: BIT &FEE6
| BVC more
| STA &FEE7
| INX
| CPX #3
| BNE next
| here: JMP here
| bytes: byte 3, 5, 9
| taken: PHA
| INC &70
| LDA &FEE7
| CLC
| ADC &71
| STA &71
| PLA
| RTI
| org &FFFA
| word start, start, taken
do copied-all
| CLI
| stop: JMP stop
| taken: PHA
| BIT &FEF8
| BPL four
| LDA &FEF9
| INC &70
| CLC
| ADC &71
| STA &71
| PLA
| RTI
| four: LDA &FEFF
| INC &72
| CLC
| ADC #1
| room: BIT &FEFE
| BVC room
| STA &FEFF
| PLA
| RTI
| org &FFFA
| word start, start, taken
do ends PC=C020 A=09 X=03 Y=00 S=FD P=63 PC=F812 A=F8 X=00 Y=00 S=FD P=22
at o.host 0070 03 14
at o.para 0070 03 11 03
do replayed PC=C020 A=09 X=03 Y=00 S=FD P=63 PC=F812 A=F8 X=00 Y=00 S=FD P=22
";

#[test]
fn transfers_by_polling_and_by_interrupts_end_as_worked_out(rt: HostRuntime) -> Result<(), Fail> {
    all_hold(&rt, rt.alloc(), SCENES)
}
