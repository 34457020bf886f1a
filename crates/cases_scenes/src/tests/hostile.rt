//! Hostile machines: hosts and second processors that stop or run the Tube's answers, a device
//! before all others, no access kept, and a crew that starts no thread.
use super::scene::all_hold;
use std::test::Fail;

const MACHINES: &str = "\
part goes-on
$ resume t {} o --wav w --save s
= 0
left 6
end
part taken-up
$ resume t 1000 o --save s
= 0
same o.report o.host o.para o.trace o.plug0 o.plug1 s
end
part listed
= 0
| listed {} of {}
file o.list
end
part jump
| {} F800 A=00 X=00 Y=00 S=FD P=24 JMP &F800
end
part stopped
$ solo 1000000 o % --wav w --save s
= 0
file o.report
| ticks 1000000
| host PC=C005 A=A0 X=00 Y=00 S=FD P=A4 halted
| para PC=F800 A=00 X=00 Y=00 S=FD P=24 held
| tube 1
| kept 1
| frames 0
end
part both-stopped
$ replay host t 1000000 {} --os os --wav w
= 0
line o.report host PC=C005 A=A0 X=00 Y=00 S=FD P=A4 halted
same o.host w
$ replay para t 1000000 {} --tube tube
= 0
line o.report para PC=F800 A=00 X=00 Y=00 S=FD P=24 held
same o.para
end
# A host that holds the second processor and halts, for a million ticks.
do os
| LDA #&A0
| STA &FEE0
| byte 2
do start C000
tube loop
do stopped
file o.trace
| 0000000024 H W 0 A0
size w 10462
size s 18542
keep
each 1000
run 1000000 o % --wav w --save s
= 0
left 6
take s
do goes-on 1000000
run {} o % --save s
= 0
take s
do goes-on 1000000
end
ticks 24 H W 0 A0
do both-stopped o
$ follow host t 1000000 o --os os
do listed 3
| 0000000015 C000 A=00 X=00 Y=00 S=FD P=24 LDA #&A0
| 000000001B C002 A=A0 X=00 Y=00 S=FD P=A4 STA &FEE0
| 0000000027 C005 A=A0 X=00 Y=00 S=FD P=A4 byte &02
$ follow para t 1000000 o --tube tube
do listed 4
do jump 000000000E, 0000000014, 000000001A, 0000000020
## The same at 4 MHz.
with --speed 4 --os os --tube tube
do stopped
file o.trace
| T2
| 0000000048 H W 0 A0
size w 5254
size s 18542
keep
again 1000
t
| T2
| 0000000048 H W 0 A0
do both-stopped o --speed 4
$ follow host t 1000000 o --speed 4 --os os
do listed 3
| 000000002A C000 A=00 X=00 Y=00 S=FD P=24 LDA #&A0
| 0000000036 C002 A=A0 X=00 Y=00 S=FD P=A4 STA &FEE0
| 000000004E C005 A=A0 X=00 Y=00 S=FD P=A4 byte &02
$ follow para t 1000000 o --speed 4 --tube tube
do listed 6
do jump 0000000015, 000000001E, 0000000027, 0000000030, 0000000039, 0000000042
# Code from the Tube, which ends in breaks without end at 0000, for a million ticks.
os loop
do status-code
$ solo 1000000 o % --wav w --save s
= 0
line o.report para PC=0000 A=00 X=00 Y=00 S=FA P=24
line o.report tube 2
file o.trace
do entries 014 P R 0 40, 016 P R 1 00
keep
again 22
ticks 14 P R 0 40, 16 P R 1 00
$ replay para t 1000000 o --tube tube
= 0
line o.report para PC=0000 A=00 X=00 Y=00 S=FA P=24
same o.para
$ follow para t 33 o --tube tube
do listed 3
| 000000000E F800 A=00 X=00 Y=00 S=FD P=24 JMP &FEF8
| 0000000014 FEF8 A=00 X=00 Y=00 S=FD P=24 ?
| 0000000020 0000 A=00 X=00 Y=00 S=00 P=20 BRK
$ follow para t 33 o --tube tube --at FEF8
do listed 1
| 0000000014 FEF8 A=00 X=00 Y=00 S=FD P=24 ?
$ follow para t 1000000 o --tube tube --watch FEF8
= 0
| listed 0 of 0
size o.list 0
## The same at 4 MHz.
with --speed 4 --os os --tube tube
$ solo 1000000 o % --wav w --save s
= 0
line o.report para PC=0000 A=00 X=00 Y=00 S=00 P=24
line o.report tube 2
file o.trace
| T2
do entries 01E P R 0 40, 021 P R 1 00
keep
again 33
t
| T2
do entries 01E P R 0 40, 021 P R 1 00
$ replay para t 1000000 o --speed 4 --tube tube
= 0
line o.report para PC=0000 A=00 X=00 Y=00 S=00 P=24
same o.para
$ follow para t 49 o --speed 4 --tube tube
do listed 3
| 0000000015 F800 A=00 X=00 Y=00 S=FD P=24 JMP &FEF8
| 000000001E FEF8 A=00 X=00 Y=00 S=FD P=24 ?
| 0000000030 0000 A=00 X=00 Y=00 S=00 P=20 BRK
$ follow para t 49 o --speed 4 --tube tube --at FEF8
do listed 1
| 000000001E FEF8 A=00 X=00 Y=00 S=FD P=24 ?
$ follow para t 1000000 o --speed 4 --tube tube --watch FEF8
= 0
| listed 0 of 0
size o.list 0
# A device that owns all of FRED and JIM, in front of a RAM card, which nothing reaches.
plugs counter card
do os
| LDA #5
| STA &FCFF
| LDA #&77
| STA &FD00
| STA &FDFF
| LDA &FD00
| STA &FEE1
| STA &70
do here
tube loop
$ solo 1000 o % --plugs 2 --save s
= 0
at o.host 0070 03
file o.trace
| 000000006F H W 1 03
file o.plug0
x 04
file o.plug1
* 65536 x 00
keep
run 1000 o % --plugs 8
= 0
same o.report o.host o.para o.trace o.plug0 o.plug1
$ solo 1000 o % --plugs 2 --save s
= 0
take s
do taken-up
$ resume t 111 o --save s
= 0
line o.report tube 0
file o.plug0
x 04
size o.plug1 65536
take s
do taken-up
run 2000 o --speed 4 % --plugs 2
= 0
same o.host o.plug0 o.plug1
ticks 6F H W 1 03
$ replay host t 1000 o --os os --plugs 2
= 0
same o.host o.plug0 o.plug1
$ follow host t 1000 o --os os --plugs 2 --at C00D --watch FD00
= 0
| listed 0 of 0
size o.list 0
$ follow host t 112 o --os os --plugs 2 --at C00D
do listed 1
| 0000000054 C00D A=77 X=00 Y=00 S=FD P=24 LDA &FD00
## With the card in front, the host does something else.
plugs card counter
$ follow host t 1000 o --os os --plugs 2
= 8: differs 1 000000006F H W 1 77
none o.list
plugs counter card
$ solo 1000 o % --plugs 2 --save s
= 0
take s
plugs card counter
$ resume t 1000 o
= 8: differs 1 000000006F H W 1 77
none o.report o.host o.para o.trace o.plug0 o.plug1
$ resume t 111 o
= 0
file o.trace
# No access is kept.
os letters
tube letters
$ solo 2000 o --keep 0 % --wav w --save s
= 0
file o.report
do letters 0
at o.host 0070 48 49 00
size o.trace 0
size w 66
size s 18535
at s 0005 03 00 00 00 00 00
keep
run 2000 o % --keep 0 --wav w --save s
= 0
left 6
take s
$ resume t 2000 o --keep 0 --wav w --save s
= 0
left 6
$ resume t 2000 o
= 0
same o.host o.para
line o.report kept 49
size o.trace 980
run 4000 o % --keep 0 --speed 4
= 0
line o.report tube 38
line o.report kept 0
file o.trace
| T2
# A crew that starts no thread: every command but `run` goes on without one.
os letters
tube letters
ticks 14 H R 0 40
alone check t
= 0: ok 1
t
+ NOP
alone asm 6502 t out
= 0
file out
x EA
t
x EA
alone dis 65c02 t C000 out
= 0
file out
| org &C000
| NOP
$ solo 2000 o % --wav w --save s
= 0
trace
alone solo 2000 o % --wav w --save s
= 0
same o.report o.host o.para o.trace w
alone replay host t 2000 o --os os --wav w
= 0
same o.host w
alone replay para t 2000 o --tube tube
= 0
same o.para
alone follow host t 2000 o --os os --watch 0070
do listed 1
| 00000003CC C00C A=48 X=00 Y=00 S=FD P=24 INX
alone solo 1000 o % --save s
= 0
take s
alone resume t 2000 o --wav w --save s
= 0
left 6
alone gen 1
= 0
| seed 1
| bytes 4096
| sum 5D40
| ticks 1000000
alone run 2000 o % --wav w --save s
= 6 no thread
left 0
alone run 2000 o --speed 4 --keep 0 % --wav w --save s
= 6 no thread
left 0
";

#[test]
fn hostile_machines_run_as_any_other(rt: HostRuntime) -> Result<(), Fail> {
    all_hold(&rt, rt.alloc(), MACHINES)
}
