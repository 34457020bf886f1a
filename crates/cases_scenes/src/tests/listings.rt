//! Listings of the instructions that a machine starts against a trace.
use super::scene::all_hold;
use std::test::Fail;

const SCENES: &str = "\
# A listed loop.
tube loop
t
do follows 3 para t 30 o --tube tube
file o.list
| 000000000E F800 A=00 X=00 Y=00 S=FD P=24 JMP &F800
| 0000000014 F800 A=00 X=00 Y=00 S=FD P=24 JMP &F800
| 000000001A F800 A=00 X=00 Y=00 S=FD P=24 JMP &F800
none o.report
do follows 3 para t 30 o --tube tube --at F800, 0 para t 30 o --tube tube --at F803
file o.list
do follows 0 para t 30 o --tube tube --watch 0000, 0 para t 13 o --tube tube
## From a tick on: at the first start, behind it, at the last, behind that, and at the end.
each 0 3, 14 3, 15 2, 26 1, 27 0, 30 0, 1073741824 0
do follows {2} para t 30 o --tube tube --from {1}
end
do follows 2 para t 30 o --tube tube --from 15
file o.list
| 0000000014 F800 A=00 X=00 Y=00 S=FD P=24 JMP &F800
| 000000001A F800 A=00 X=00 Y=00 S=FD P=24 JMP &F800
do follows 2 para t 60000 o --tube tube --from 59990 --at F800
! follow para t 30 o --tube tube --from 1073741825
! follow para t 30 o --tube tube --from -1
! follow para t 30 o --tube tube --from
! replay para t 30 o --tube tube --from 3
# A watched byte.
os letters
tube letters
$ solo 2000 o %
= 0
take o.trace
do follows 1 host t 2000 o --os os --watch 0070
file o.list
| 00000003CC C00C A=48 X=00 Y=00 S=FD P=24 INX
none o.report o.host
## The start before stays the start before, whether it is listed or not.
each 972 1, 973 0
do follows {2} host t 2000 o --os os --watch 0070 --from {1}
end
do follows 1 para t 2000 o --tube tube --at F80B
## A refused listing: the order of refusals is that of a replay.
t
$ follow host t 2000 o --os os --watch 0070
= 8: differs 1 0000000024 H R 0 --
none o.list
ticks 24 H R 0 41
$ follow host t 2000 o --os os
= 8: wrong 1 40
none o.list
t
| 0000000024 H R 0
$ follow host t 2000 o --os os
= 4 bad trace 1 kind 1
fails 1 -
$ follow host t 2000 o --os os
= 2 cannot read os
fails - 0
t
$ follow para t 0 o --tube tube
= 5 cannot write o.list
fails - 1
$ follow para t 0 o --tube tube
= 5 cannot write -
file o.list
# The host's interrupt comes in the JMP from tick 63, and takes 21 ticks. It pushes PC, C006, and the flags, A0.
do os
| LDA #&81
| STA &FEE0
| CLI
| here: JMP here
| tick: LDA &FEE7
| RTI
| org &FFFA
| word 0, &C000, tick
ticks 24 H W 0 81, 40 P W 7 55, 66 H R 7 55
do follows 10 host t 140 o --os os
file o.list
| 0000000015 C000 A=00 X=00 Y=00 S=FD P=24 LDA #&81
| 000000001B C002 A=81 X=00 Y=00 S=FD P=A4 STA &FEE0
| 0000000027 C005 A=81 X=00 Y=00 S=FD P=A4 CLI
| 000000002D C006 A=81 X=00 Y=00 S=FD P=A0 JMP &C006
| 0000000036 C006 A=81 X=00 Y=00 S=FD P=A0 JMP &C006
| 000000003F C006 A=81 X=00 Y=00 S=FD P=A0 JMP &C006
| 000000005D C009 A=81 X=00 Y=00 S=FA P=A4 LDA &FEE7
| 0000000069 C00C A=55 X=00 Y=00 S=FA P=24 RTI
| 000000007B C006 A=55 X=00 Y=00 S=FD P=A0 JMP &C006
| 0000000084 C006 A=55 X=00 Y=00 S=FD P=A0 JMP &C006
each 01FD, 01FC, 01FB
do follows 1 host t 2000 o --os os --watch {}
file o.list
| 000000005D C009 A=81 X=00 Y=00 S=FA P=A4 LDA &FEE7
end
do follows 0 host t 2000 o --os os --watch 01FA
# BREAK comes with the last tick of the JMP from tick 57. The sequences of both machines that it begins have no line: 7 cycles, which take 3 from S.
os loop
tube loop
keys
| at 60 break
ticks 41 H X 0 00
do follows 7 host t 97 o --os os --keys keys
do break-list
do follows 5 host t 87 o --os os --keys keys
$ follow host t 97 o --os os
= 8: differs 1 -
none o.list
do follows 11 para t 89 o --tube tube
line o.list 000000003E F800 A=00 X=00 Y=00 S=FD P=24 JMP &F800
line o.list 0000000052 F800 A=00 X=00 Y=00 S=FA P=24 JMP &F800
line o.list 0000000058 F800 A=00 X=00 Y=00 S=FA P=24 JMP &F800
size o.list 561
do follows 9 para t 82 o --tube tube
";

const COUNTS: &str = "\
# What is counted of a loop: the last start has the ticks to the end, and the start at the end is none.
tube loop
t
each 13 0, 14 0
do follows 0 para t {1} o --tube tube --counts
file o.counts
end
do follows 1 para t 15 o --tube tube --counts
file o.counts
| F800 1 1
do follows 3 para t 30 o --tube tube --counts
file o.counts
| F800 3 16
size o.list 153
## All starts are counted, chosen or not, from a tick on.
do follows 0 para t 30 o --tube tube --counts --at F803
file o.counts
| F800 3 16
size o.list 0
do follows 2 para t 30 o --tube tube --from 15 --counts
file o.counts
| F800 2 10
do follows 0 para t 30 o --tube tube --from 30 --counts
file o.counts
## Without the word nothing is counted, and where the machine differs nothing is written.
do follows 3 para t 30 o --tube tube
none o.counts
ticks 14 P W 1 00
$ follow para t 30 o --tube tube --counts
= 8: differs 1 -
none o.list o.counts
t
fails - 1
$ follow para t 30 o --tube tube --counts
= 5 cannot write o.counts
fails - 2
$ follow para t 30 o --tube tube --counts
= 5 cannot write -
file o.counts
| F800 3 16
fails - -
# A branch that is taken once and not the second time: DEX takes 2 cycles, BNE 3 and then 2.
do os
| LDX #2
| back: DEX
| BNE back
do here
t
do follows 6 host t 60 o --os os --counts
file o.counts
| C000 1 6
| C002 2 12
| C003 2 15 1
| C005 1 6
# An interrupt: the ticks of its sequence are those of the instruction before it.
do os
| LDA #&81
| STA &FEE0
| CLI
| here: JMP here
| tick: LDA &FEE7
| RTI
| org &FFFA
| word 0, &C000, tick
ticks 24 H W 0 81, 40 P W 7 55, 66 H R 7 55
do follows 10 host t 140 o --os os --counts
file o.counts
| C000 1 6
| C002 1 12
| C005 1 6
| C006 5 65
| C009 1 12
| C00C 1 18
# A halted host has no further start, and a second processor that is held none until its reset is done.
do os
| byte &02
do start C000
t
do follows 1 host t 100 o --os os --counts
file o.counts
| C000 1 79
tube loop
ticks 62 H W 0 A0, 80 H W 0 20
do follows 15 para t 104 o --tube tube --counts
file o.counts
| F800 15 90
do follows 16 para t 145 o --tube tube --counts
file o.counts
| F800 16 131
# Code that changes itself: at 0070 a branch stands, whose condition holds, and then another instruction.
do os
| LDA #&D0
| STA &70
| LDA #&00
| STA &71
| LDA #&4C
| STA &72
| LDA #&17
| STA &73
| LDA #&C0
| STA &74
| JMP &0070
| LDA #&A9
| STA &70
| JMP &0070
do start C000
t
do follows 18 host t 162 o --os os --counts
file o.counts
| 0070 2 15 1
| 0072 2 18
| C000 1 6
| C002 1 9
| C004 1 6
| C006 1 9
| C008 1 6
| C00A 1 9
| C00C 1 6
| C00E 1 9
| C010 1 6
| C012 1 9
| C014 1 9
| C017 1 6
| C019 1 9
| C01B 1 9
# A host without a Tube, and at 4 MHz, where each tick is half as long.
do os
| LDA &FEE0
| STA &70
| STA &FEE5
| INC &FEE3
| LDX &FEFF
do here
t
do follows 7 host t 100 o --os os --no-tube --counts
file o.counts
| C000 1 12
| C003 1 9
| C005 1 12
| C008 1 18
| C00B 1 12
| C00E 2 16
do follows 5 host t 200 o --os os --counts --speed 4 --no-tube --from 83
file o.counts
| C005 1 24
| C008 1 36
| C00B 1 24
| C00E 2 32
";

const POINTS: &str = "\
# Addresses of a file choose as one address does.
tube loop
t
keys
| F800
do follows 3 para t 30 o --tube tube --points keys, 2 para t 30 o --tube tube --points keys --from 15, 0 para t 30 o --tube tube --points keys --watch 0000
keys
| 0000
| F7FF
| F801
| FFFF
do follows 0 para t 30 o --tube tube --points keys
## None at all choose nothing, and all are counted.
keys
do follows 0 para t 30 o --tube tube --points keys --counts
file o.counts
| F800 3 16
## Those of a file are refused in their order: a line outside the form, and one that does not rise.
keys
| 0000
| F80
$ follow para t 30 o --tube tube --points keys
= 4 bad points 2 kind 1
none o.list
keys
| f800
$ follow para t 30 o --tube tube --points keys
= 4 bad points 1 kind 1
keys
| F800
|
$ follow para t 30 o --tube tube --points keys
= 4 bad points 2 kind 1
keys
+ F800
$ follow para t 30 o --tube tube --points keys
= 4 bad points 1 kind 1
keys
| 0000
| F800
| F800
| x
$ follow para t 30 o --tube tube --points keys
= 4 bad points 3 kind 2
## They come behind the key script and before the trace's answers, and are read last.
keys
| F80
os loop
$ follow host t 100 o --os os --keys keys --points keys
= 4 bad script 1 kind 1
ticks 24 H R 0 41
$ follow host t 100 o --os os --points keys
= 4 bad points 1 kind 1
$ follow host t 100 o --os os --points p --keys q
= 2 cannot read q
$ follow host t 100 o --os os --keys keys --points p
= 2 cannot read p
! follow host t 100 o --os os --points keys --at C000
! replay host t 100 o --os os --points keys
! replay host t 100 o --os os --counts
! solo 100 o % --counts
! resume t 100 o --points keys
";

const DEMONSTRATION: &str = "\
# The demonstration, from both sides. The numbers and lengths are those of a plain model of its instructions, which takes the answers of the trace.
do os
| start: LDX #0
| STX &70
| STX &71
| wait: BIT &FEE0
| BPL wait
| LDA &FEE1
| STA &2000,X
| CLC
| ADC &70
| STA &70
| BCC next
| INC &71
| next: INX
| JMP wait
| org &FFFA
| word start, start, start
do tube
| start: LDX #0
| copy: LDA &F800,X
| STA &F800,X
| LDA &F900,X
| STA &F900,X
| INX
| BNE copy
| LDY #16
| send: BIT &FEF8
| BVC send
| LDA &F900,X
| STA &FEF9
| INX
| BNE send
| DEY
| BNE send
| stop: JMP stop
| org &FFFA
| word start, start, start
$ solo 1000000 o %
= 0
trace
do follows 99918 host t 1000000 o --os os
size o.list 5038469
line o.list 0000000015 C000 A=00 X=00 Y=00 S=FD P=24 LDX #&00
line o.list 00000F4236 C006 A=00 X=00 Y=00 S=FD P=66 BIT &FEE0
do follows 159577 para t 1000000 o --tube tube
size o.list 8122457
line o.list 000000000E F800 A=00 X=00 Y=00 S=FD P=24 LDX #&00
line o.list 00000F423E F824 A=00 X=00 Y=00 S=FD P=66 JMP &F824
## Each of 4,096 bytes is sent and taken once.
do follows 4096 host t 1000000 o --os os --at C00B
size o.list 208896
do follows 4096 para t 1000000 o --tube tube --at F81B
size o.list 208896
";

#[test]
fn instructions_are_listed(rt: HostRuntime) -> Result<(), Fail> {
    all_hold(&rt, rt.alloc(), SCENES)
}

#[test]
fn starts_are_counted(rt: HostRuntime) -> Result<(), Fail> {
    all_hold(&rt, rt.alloc(), COUNTS)
}

#[test]
fn addresses_of_a_file_choose(rt: HostRuntime) -> Result<(), Fail> {
    all_hold(&rt, rt.alloc(), POINTS)
}

#[test]
fn the_demonstration_is_listed_from_both_sides(rt: HostRuntime) -> Result<(), Fail> {
    all_hold(&rt, rt.alloc(), DEMONSTRATION)
}
