//! The host by itself: its cycles, interrupts and devices, worked out by hand.
use super::scene::all_hold;
use std::test::Fail;

const SCENES: &str = "\
part ends
| org &C200
| JMP &C200
| org &C300
| JMP &C300
| org &FFFA
| word &C200, &C000, &C300
end
part asking
do os
| LDA #&81
| STA &FEE0
| {}
| JMP &C006
do ends
end
part timer
do os
| LDA #&7F
| STA &FE43
| LDA #&41
| STA &FE4F
| LDA #&40
| STA &FE4B
| LDA #&62
| STA &FE44
| LDA #0
| STA &FE45
| LDA #&C0
| STA &FE4E
| CLI
| here: JMP here
| org &C200
| JMP &C200
| org &C300
| INC &70
| LDA &FE44
| LDA &FE4F
| STA &71
| RTI
| org &FFFA
| word &C200, &C000, &C300
end
part counted
$ replay host t {1} o --os os --keys keys
= 0
at o.host 0070 {2+}
end
part loaded
$ solo {1} o % --disc0 t
= 0
at o.host 0070 {2}
at o.host 1000 {3} {4}
at o.host 10FE {5} {6}
end
# No ticks, and a reset of seven cycles.
do os
| NOP
do ends
t
do host 0 0 PC=0000 A=00 X=00 Y=00 S=00 P=20, 20 0 PC=0000 A=00 X=00 Y=00 S=00 P=20, 21 0 PC=C000 A=00 X=00 Y=00 S=FD P=24
# LDA FE40 at host cycle 7: its access at cycle 10 takes two, and the next opcode is read at tick 36.
do os
| LDA &FE40
do ends
t
do host 35 0 PC=C000 A=00 X=00 Y=00 S=FD P=24, 36 0 PC=C003 A=FF X=00 Y=00 S=FD P=A4
# LDA 70 before it: its access at cycle 13 takes three, and the next opcode is read at tick 48.
do os
| LDA &70
| LDA &FE40
do ends
t
do host 47 0 PC=C002 A=00 X=00 Y=00 S=FD P=26, 48 0 PC=C005 A=FF X=00 Y=00 S=FD P=A4
# An opcode without an instruction: halted as soon as it is read, and from then on.
do os
| byte 2
do ends
t
do host 21 0 PC=C000 A=00 X=00 Y=00 S=FD P=24, 22 0 PC=C000 A=00 X=00 Y=00 S=FD P=24 halted, 100 0 PC=C000 A=00 X=00 Y=00 S=FD P=24 halted
# STA FEFF: the low three bits are the register.
do os
| STA &FEFF
do ends
ticks 1E H W 7 00
do host 40 1 PC=C003 A=00 X=00 Y=00 S=FD P=24
# The host takes interrupts of the Tube, with looks at the ticks 53, 62 and so on. The parasite's byte before a look is seen there, and the interrupt takes seven cycles.
do asking CLI
ticks 24 H W 0 81, 34 P W 7 11
do host 74 1 PC=C006 A=81 X=00 Y=00 S=FD P=A0, 75 1 PC=C300 A=81 X=00 Y=00 S=FA P=A4
# At the tick of a look the host goes first, and the next look sees it.
do asking CLI
ticks 24 H W 0 81, 35 P W 7 11
do host 83 1 PC=C006 A=81 X=00 Y=00 S=FD P=A0, 84 1 PC=C300 A=81 X=00 Y=00 S=FA P=A4
# I is set, and the interrupt is not taken.
do asking NOP
ticks 24 H W 0 81, 34 P W 7 11
do host 200 1 PC=C006 A=81 X=00 Y=00 S=FD P=A4
# No interrupt without the parasite's byte.
do asking CLI
ticks 24 H W 0 81
do host 200 1 PC=C006 A=81 X=00 Y=00 S=FD P=A0
# The registers where a machine stops are not told where it differs; a halted host does nothing more.
do os
| byte 2
do ends
ticks 50 H R 0 40
$ replay host t 100 o --os os
= 8: differs 1 -
# Timer 1 runs free from tick 129 on, and sets its flag at the ticks 726, 1326 and so on. The handler counts at 0070, and keeps port A, with key 41, at 0071.
do timer
t
keys
do counted 726 00 00
keys
do counted 6426 0A 41
keys
| at 3000 down 41
do counted 2826 04 41
keys
| at 3000 down 41
do counted 6426 0A C1
keys
| at 3000 down 41
| at 5000 up 41
do counted 6426 0A 41
keys
| at 0 down 31
| at 6000 shot
do counted 6426 0A 41
# Its first interrupt is taken at the look of tick 734, and is over after 21 ticks.
do timer
t
do host 755 0 PC=C01F A=C0 X=00 Y=00 S=FD P=A0, 756 0 PC=C300 A=C0 X=00 Y=00 S=FA P=A4
# Byte i of a sector comes in microsecond 21,952 + 64 i, the first at tick 131,712 and the last at tick 229,632, and the end is at tick 230,400.
do os
| LDA #&29
| STA &FE80
| LDA #1
| STA &FE86
| LDA #&80
| STA &FE84
| here: JMP here
| org &C200
| LDA &FE84
| AND #2
| BEQ over
| LDA &FE87
| STA &1000,X
| INX
| over: INC &70
| RTI
| org &FFFA
| word &C200, &C000, 0
tube loop
t
* 256 x 00
x 01..10
x 11..20
x 21..30
x 31..40
x 41..50
x 51..60
x 61..70
x 71..80
x 81..90
x 91..A0
x A1..B0
x B1..C0
x C1..D0
x D1..E0
x E1..F0
x F1..FF 00
do loaded 131710 00 00 00 00 00, 131900 01 01 00 00 00, 229900 00 01 02 FF 00, 230600 01 01 02 FF 00, 400000 01 01 02 FF 00
";

#[test]
fn the_host_goes_by_its_cycles(rt: HostRuntime) -> Result<(), Fail> {
    all_hold(&rt, rt.alloc(), SCENES)
}
