//! A BBC Micro by itself: nothing answers at the Tube's addresses.
use super::scene::all_hold;
use std::test::Fail;

const SCENES: &str = "\
# Reads give FE, writes do nothing, and each access takes its one cycle: the ticks of the starts are those of the data sheet's cycles.
do os
| LDA &FEE0
| STA &70
| STA &FEE5
| INC &FEE3
| LDX &FEFF
do here
t
do follows 7 host t 100 o --os os --no-tube
file o.list
| 0000000015 C000 A=00 X=00 Y=00 S=FD P=24 LDA &FEE0
| 0000000021 C003 A=FE X=00 Y=00 S=FD P=A4 STA &70
| 000000002A C005 A=FE X=00 Y=00 S=FD P=A4 STA &FEE5
| 0000000036 C008 A=FE X=00 Y=00 S=FD P=A4 INC &FEE3
| 0000000048 C00B A=FE X=00 Y=00 S=FD P=A4 LDX &FEFF
| 0000000054 C00E A=FE X=FE Y=00 S=FD P=A4 JMP &C00E
| 000000005D C00E A=FE X=FE Y=00 S=FD P=A4 JMP &C00E
$ replay host t 100 o --no-tube --os os
= 0
file o.report
| ticks 100
| host PC=C00E A=FE X=FE Y=00 S=FD P=A4
| tube 0
| frames 0
at o.host 0070 FE 00
## With a Tube the same host differs from an empty trace at its first access.
$ replay host t 100 o --os os
= 8: differs 1 000000001E H R 0 --
## At 4 MHz each tick is half as long.
do follows 5 host t 200 o --os os --speed 4 --no-tube --from 83
file o.list
| 0000000054 C005 A=FE X=00 Y=00 S=FD P=A4 STA &FEE5
| 000000006C C008 A=FE X=00 Y=00 S=FD P=A4 INC &FEE3
| 0000000090 C00B A=FE X=00 Y=00 S=FD P=A4 LDX &FEFF
| 00000000A8 C00E A=FE X=FE Y=00 S=FD P=A4 JMP &C00E
| 00000000BA C00E A=FE X=FE Y=00 S=FD P=A4 JMP &C00E
# An operating system that asks for the Tube finds none, and with one it does: its control byte is read back as a status.
do os
| LDA #&81
| STA &FEE0
| LDA &FEE0
| LSR A
| BCC none
| INC &70
| none: INC &71
do here
t
$ replay host t 200 o --os os --no-tube
= 0
at o.host 0070 00 01
ticks 24 H W 0 81, 30 H R 0 41
$ replay host t 200 o --os os
= 0
at o.host 0070 01 01
# A poll that never ends: LDA, CMP and BNE take 4, 2 and 3 cycles.
do os
| poll: LDA &FEE0
| CMP #&FF
| BNE poll
do start C000
t
do follows 2 host t 600021 o --os os --no-tube --at C000 --from 599967
file o.list
| 00000927B4 C000 A=FE X=00 Y=00 S=FD P=A4 LDA &FEE0
| 00000927CF C000 A=FE X=00 Y=00 S=FD P=A4 LDA &FEE0
# Code at FEE0 is FE FE FE, INC &FEFE,X; the eleventh is FE FE and the operating system's 00. No byte of it stands in memory, so that it has no text.
do os
| JMP &FEE0
| org &FF00
| byte 0
do here
t
do follows 13 host t 270 o --os os --no-tube
file o.list
| 0000000015 C000 A=00 X=00 Y=00 S=FD P=24 JMP &FEE0
| 000000001E FEE0 A=00 X=00 Y=00 S=FD P=24 ?
| 0000000033 FEE3 A=00 X=00 Y=00 S=FD P=A4 ?
| 0000000048 FEE6 A=00 X=00 Y=00 S=FD P=A4 ?
| 000000005D FEE9 A=00 X=00 Y=00 S=FD P=A4 ?
| 0000000072 FEEC A=00 X=00 Y=00 S=FD P=A4 ?
| 0000000087 FEEF A=00 X=00 Y=00 S=FD P=A4 ?
| 000000009C FEF2 A=00 X=00 Y=00 S=FD P=A4 ?
| 00000000B1 FEF5 A=00 X=00 Y=00 S=FD P=A4 ?
| 00000000C6 FEF8 A=00 X=00 Y=00 S=FD P=A4 ?
| 00000000DB FEFB A=00 X=00 Y=00 S=FD P=A4 ?
| 00000000F0 FEFE A=00 X=00 Y=00 S=FD P=A4 ?
| 0000000105 FF01 A=00 X=00 Y=00 S=FD P=24 JMP &FF01
$ replay host t 270 o --os os --no-tube
= 0
at o.host 00FE 01
# BREAK asks for no reset, at a look and at the last tick of a halted cycle. The sequences that it begins take 7 cycles and 3 from S.
os loop
keys
| at 60 break
t
do follows 7 host t 97 o --os os --keys keys --no-tube
do break-list
do os
| INC &70
| byte &02
do start C000
keys
| at 62 break
| at 130 break
$ replay host t 200 o --os os --keys keys --no-tube
= 0
line o.report host PC=C002 A=00 X=00 Y=00 S=F7 P=24 halted
at o.host 0070 03
$ replay host t 400 o --os os --keys keys --no-tube --speed 4
= 0
line o.report host PC=C002 A=00 X=00 Y=00 S=F7 P=24 halted
at o.host 0070 03
## A Tube would have been asked for one.
$ replay host t 200 o --os os --keys keys
= 8: differs 1 000000003E H X 0 00
# Interrupts and devices are as with a Tube: timer 1 of the user's 6522 interrupts a halted poll.
do os
| LDA #&C0
| STA &FE6E
| LDA #20
| STA &FE64
| LDA #0
| STA &FE65
| CLI
| poll: LDA &FEE2
| JMP poll
| tick: INC &70
| LDA &FE64
| RTI
| org &FFFA
| word 0, &C000, tick
t
$ replay host t 2000 o --os os --no-tube
= 0
at o.host 0070 01
# The trace has to be empty, whatever stands in it; the words are for a host by itself alone.
os loop
tube loop
ticks 24 H R 0 40
$ replay host t 100 o --os os --no-tube
= 4 bad trace 1 kind 5
$ follow host t 100 o --os os --no-tube
= 4 bad trace 1 kind 5
t
| T2
$ replay host t 100 o --os os --no-tube --speed 4
= 4 bad trace 1 kind 5
t
! replay para t 100 o --tube tube --no-tube
! follow para t 100 o --tube tube --no-tube
! solo 100 o % --no-tube
! replay host t 100 o --os os --no-tube --no-tube
! replay host t 100 o --no-tube
";

#[test]
fn a_host_by_itself(rt: HostRuntime) -> Result<(), Fail> {
    all_hold(&rt, rt.alloc(), SCENES)
}
