//! Two machines that talk: thousands of polls, ends at each tick near an access, and accesses in
//! every form. A host's cycle is 3 ticks and one of the second processor 2; at 4 MHz they are 6 and
//! 3. Their first instructions begin at ticks 21 and 14. At equal ticks the host's access comes
//! first.
use super::scene::all_hold;
use std::test::Fail;

const SCENES: &str = "\
part did
line o.trace 000000{}
end
# Two letters. The host polls at 36 and each 21 ticks (LDA 4 cycles, BPL 3); 32 bytes are copied, 28 ticks each, up to 912; writes are at 922 and 934.
## The polls up to 918 are in vain, which are 43; that at 939 sees a byte, which is read at 957, and that at 1002 the other, which is read at 1020.
os letters
tube letters
each 922 43, 923 44, 924 44, 925 44, 926 44, 927 44, 928 44, 929 44, 930 44, 931 44, 932 44, 933 44, 934 44, 935 45
$ solo {1} o % --save s
= 0
line o.report tube {2}
keep
run {1} o % --save s
= 0
same o.report o.host o.para o.trace s
take s
$ resume t {1} o --save s
= 0
same o.report o.host o.para o.trace s
end
again 918 42, 919 43, 939 45, 940 46, 957 46, 958 47, 1003 48, 1021 49, 2000 49
do did 039A P W 1 48, 03AB H R 0 C0
line o.report host PC=C011 A=49 X=02 Y=00 S=FD P=27
## Both replays agree. The host starts its LDA 45 times, 27 + 21 k up to 930 and at 993; the second processor its last JMP at 936 and each 6 ticks.
trace
do replays 2000
$ follow host t 2000 o --os os --at C002
= 0
| listed 45 of 45
$ follow host t 973 o --os os --from 943
= 0
| listed 3 of 3
file o.list
| 00000003B4 C007 A=C0 X=00 Y=00 S=FD P=A4 LDA &FEE1
| 00000003C0 C00A A=48 X=00 Y=00 S=FD P=24 STA &70,X
| 00000003CC C00C A=48 X=00 Y=00 S=FD P=24 INX
$ follow para t 2000 o --tube tube --at F815
= 0
| listed 178 of 178
## A poll of the trace that is a tick late, the tenth at 225 (E1), and the first poll that a trace up to tick 939 lacks.
poke 189 32
$ replay host t 2000 o --os os
= 8: differs 10 00000000E1 H R 0 --
$ solo 939 o %
trace
$ replay host t 940 o --os os
= 8: differs 46 00000003AB H R 0 --
## At 4 MHz the host polls at 72 and each 42 ticks, and the letters come at 1383 and 1401: 32 polls in vain up to 1374, and the next at 1416.
with --os os --tube tube --speed 4
again 1375 32, 1383 32, 1384 33, 1402 34, 1416 34, 1417 35, 1453 36, 1579 38
do did 0588 H R 0 C0
## BREAK at the look of the LDA that polled at 498: after 23 polls the host polls again from 537 on, and the second processor, whose LDA looks at
## 501, has copied its bytes anew 502 ticks later than the first time: letters at 1424 and 1436, and polls in vain up to 1419.
with --os os --tube tube --keys keys
keys
| at 500 break
again 500 23, 501 24, 538 25, 1424 67, 1425 68, 1441 70, 2000 73
do did 01F4 H X 0 00
## A tick later it waits for the look of the BPL: polls from 546 on, and letters 512 ticks later than the first time, at 1434 and 1446.
keys
| at 501 break
again 509 23, 510 24, 1434 67, 1435 68, 2000 73
do did 01FD H X 0 00
# Register 2. The host writes at 30 and polls for room at 42 and each 21 ticks; the second processor, ready at 912, polls each 14 and takes it at 930.
## The host sees room at 945, sets P at 969, while a poll is under way at 974, and clears it at 987, a tick at which a held cycle looks: all of the
## second processor is now 988 later. It takes the next byte, written at 999, at 1918, and the host, which polls from 1011 on, sees room at 1935.
## A byte is written at 1959 and seen at 1962, but T has cleared it at 1971 when it is read at 1974. The next, at 1989, is cleared at 2001, before
## a poll at 2004; the third, at 2013, is seen at 2018 and read at 2030. From then on both poll in vain: the host at 2046, the other side at 2060.
do os
| STX &FEE3
| room: BIT &FEE2
| BVC room
| LDA #&A0
| STA &FEE0
| LDA #&20
| STA &FEE0
| STX &FEE3
| more: BIT &FEE2
| BVC more
| LDA #&C0
| STX &FEE3
| STA &FEE0
| INX
| STX &FEE3
| STA &FEE0
| STX &FEE3
| last: BIT &FEE2
| BPL last
do start C000
do copied 31
| wait: BIT &FEFA
| BPL wait
| LDA &FEFB
| STA &80
| INC &81
| JMP wait
do start F800
again 918 43, 919 44, 930 45, 931 46, 945 46, 946 47, 969 48, 970 49, 974 49, 975 50, 980 50
line o.report para PC=F80E A=00 X=FF Y=00 S=FD P=66 held
again 986 50, 987 50, 988 51, 1000 52, 1906 95, 1907 96, 1919 98, 1935 98, 1936 99, 1959 100, 1960 101, 1963 102, 1971 102, 1972 103, 1974 103
again 1975 104, 1990 105, 2002 106, 2005 107, 2014 108, 2018 108, 2019 109, 2026 110, 2031 111, 200000 23677
at o.para 0080 01 04
do did 03CE P R 2 7F, 07AA P R 2 FF, 07B6 P R 3 00, 07D4 P R 2 7F, 07E9 H R 2 3F, 07EE P R 3 01
## BREAK as both poll in vain, at the host's look at 2111: all of the host is 2112 later, and of the second processor, which polls at 2116, 2118.
with --os os --tube tube --keys keys
keys
| at 2100 break
again 2111 119, 2112 120, 2117 121, 2143 122, 3036 164, 3037 166, 3058 168
do did 083F H X 0 00
# Register 4 asks for interrupts as long as Q is set: at 36. The second processor, ready at 912, writes FF at 918, which the look at 926 finds, not that at
## 917: the handler, from 948 on, reads it at 957. Polls for room at 930 and each 14 ticks are in vain up to 944. Q is clear from 975 on, and FE, written at
## 976, asks for nothing; polls from 988 on are in vain. Q is set again at 1146, and the look at 1166, behind RTI, finds the FE: it is read at 1197.
do os
| LDA #&81
| STA &FEE0
| CLI
| loop: JMP loop
| irq: LDA &FEE7
| LDX #1
| STX &FEE0
| LDY #10
| pass: DEY
| BNE pass
| LDX #&81
| STX &FEE0
| RTI
| org &FFFA
| word irq, &C000, irq
do copied 31
| send: STX &FEFF
| DEX
| wait: BIT &FEFE
| BVC wait
| BVS send
do start F800
again 36 0, 37 1, 918 1, 919 2, 926 2, 927 2, 931 3, 945 4, 957 4, 958 5, 959 6, 975 6, 976 7, 977 8, 989 9, 1146 20, 1147 21, 1166 22, 1167 22
again 1197 24, 1198 25, 1199 26, 20000 1592
do did 03BD H R 7 FF, 03D0 P W 7 FE, 04AD H R 7 FE
# Forms of both sides. The host fills all registers: 81 and 42 lie in register 3 under V, 5E, 4C and 55 in 1, 2 and 4. The second processor reads
## from 3624 on, where a register that was taken shows the same. A carry reads nothing of the Tube here; TSB, TRB, INC and ASL read twice, which
## takes both bytes of register 3, and write once; ADC takes one more cycle under D. It sends 02 to 12 too, and jumps by a status and a byte to 557F.
## The host takes what lies in register 1 from 5538 on. (80),Y and FEF1,Y read FEE1 before the carry, and then FFE1; FDE1 before the carry waits for
## the 1 MHz clock, 3 cycles at 5655 and 2 at 5676. INC reads once and writes twice; ASL &FEE0,X and both stores read once more before. It too jumps
## by a status and a byte, to 0E90.
do os
| LDA #&90
| STA &FEE0
| LDA #&81
| STA &FEE5
| LDA #&42
| STA &FEE5
| LDA #&5E
| STA &FEE1
| LDA #&4C
| STA &FEE3
| LDA #&55
| STA &FEE7
| loop: NOP
| DEX
| BNE loop
| LDA #&FE
| STA &81
| LDA #&F1
| STA &80
| LDX #1
| LDA &FEE1
| EOR &FEE0,X
| EOR (&7F,X)
| EOR (&80),Y
| EOR &FEE1,Y
| LDY #&F0
| EOR (&80),Y
| EOR &FEF1,Y
* 2 | EOR &FDF1,Y
| INC &FEE1
| ASL &FEE0,X
| STA &FEE0,X
| LDY #0
| STA (&80),Y
| ADC &FEE1
| SBC &FEE0,X
| LDY &FEE0,X
| LDX &FEE1
| LDA &FEE0
| STA &0E91
| SED
| ADC &FEE0
| STA &70
| BIT &FEE1
| LDA #&4C
| STA &0E90
| LDA #&0E
| STA &0E92
| JMP (&FEE0)
do start C000
do copied 127
| LDA #&F9
| STA &80
| LDA #&FE
| STA &81
| LDX #1
| LDA (&80)
| EOR (&7F,X)
| EOR (&80),Y
| AND &FEFA,X
| LDX #&FE
| ORA &FDFD,X
| EOR &FEFC,X
| LDX #6
| BIT &FEF8,X
| TSB &FEFD
| TRB &FEF9
| INC &FEF9
| LDX #1
| ASL &FEF8,X
| INC &FEF8,X
| STZ &FEF8,X
| STA (&80)
| STA (&80),Y
| SED
| LDA #&15
| ADC &FEFF
| TAY
| send: INX
| STX &FEF9
| CPX #18
| BNE send
| LDA #&4C
| STA &557F
| LDA #&7F
| STA &5580
| LDA #&55
| STA &5581
| JMP (&FEFE)
do start F800
again 3633 7, 3699 12, 3707 13, 3709 14, 3711 15, 3751 24, 3765 27, 3797 30, 4183 48, 4239 50
again 5548 51, 5626 56, 5665 58, 5683 59, 5701 62, 5722 66, 5737 68, 5761 70, 5821 75, 5923 79, 6100 79
at o.host 0070 81
line o.report host PC=0E90 A=0E X=0C Y=0B S=FD P=2D
line o.report para PC=557F A=55 X=12 Y=70 S=FD P=2D
do did 0E72 P R 6 FF, 0E7C P R 5 42, 0E7E P W 5 CD, 0EA6 P W 1 BC, 108C P R 6 7F, 15F9 H R 1 4C, 1620 H R 1 02, 1644 H W 1 05, 1659 H W 1 0C, 1668 H W 1 AF, 171F H R 0 90
# Equal ticks. The second processor fills register 2 at 918 and polls for room at 926 and each 14 ticks; the host, after 67 loops of 15, reads at 1038.
## A poll at that very tick sees the room. A write at 1062 is too late for the host's poll at 1062: it is seen at 1083 and read at 1101.
do os
| LDX #67
| loop: DEX
| BNE loop
| LDA &FEE3
| STA &FEE3
| wait: LDA &FEE2
| BPL wait
| LDA &FEE3
do here
do copied 31
| STA &FEFB
| room: BIT &FEFA
| BVC room
* 3 | NOP
| STX &FEFB
| stop: JMP stop
do start F800
again 918 0, 919 1, 1025 9, 1038 9, 1039 11, 1051 12, 1062 12, 1063 14, 1083 14, 1084 15, 1102 16
do did 040E H R 3 A2, 040E P R 2 7F, 0426 H R 2 3F, 0426 P W 3 FF, 043B H R 2 BF
## Polls by each form of the second processor, in 4, 5 or 6 cycles and 3 of the branch, from tick 936 on, with the access in the form's last cycle. The
## host's byte of 1050 is seen and read, and both poll in vain, the host from 1062 on, 902 times. Here are so many accesses below tick 20,000.
each 2266 BIT &FEFA, 2266 LDA &FEFA,Y, 2266 BIT &FEFA,X, 2096 LDA (&82), 2096 LDA (&82),Y, 1963 LDA (&82,X)
do copied 31
| INX
| LDA #&FA
| STA &82
| LDA #&FE
| STA &83
| wait: {2+}
| BPL wait
| LDA &FEFB
| JMP wait
do start F800
$ solo 20000 o %
= 0
line o.report tube {1}
do same 20000 o %
end
# Polls by each form of the host, in 4, 5 or 6 cycles and 4 of a branch into another page, from tick 51 on, up to the letter at 922, which is read.
tube letters
each 40 BIT &FEE0, 40 LDX &FEE0,Y, 40 LDY &FEE0,X, 36 LDA (&82),Y, 33 LDA (&82,X)
do os
| org &C0F5
| begin: LDA #&E0
| STA &82
| LDA #&FE
| STA &83
| wait: {2+}
| BPL wait
| LDA &FEE1
| here: JMP here
| org &FFFC
| word begin, 0
$ solo 2000 o %
= 0
line o.report tube {1}
do same 2000 o %
end
# Fewer accesses are kept than there are: all count, and the session goes on from the tick of the last that was kept.
os letters
tube letters
each 20 400, 44 880, 48 960, 49 980
$ solo 2000 o % --keep {1} --save s
= 0
line o.report tube 49
line o.report kept {1}
size o.trace {2}
keep
run 2000 o % --keep {1} --save s
= 0
same o.report o.host o.para o.trace s
take s
$ resume t 2000 o --keep {1} --save s
= 0
same o.report o.host o.para o.trace s
$ resume t 2000 o
= 0
line o.report kept 49
same o.host o.para
end
# Polls right before the end of a run, whichever tick it is: both commands agree, and so do both replays.
do os
| begin: LDX #255
| TXS
| LDX #0
| mean: NOP
| DEX
| BNE mean
| LDA #&40
| STA &FE4B
| LDA #<120
| STA &FE44
| LDA #>120
| STA &FE45
| LDA #&C0
| STA &FE4E
| again: CLD
| LDX #22
| t1: INC &80
| w1: BIT &FEE6
| BVC w1
| TXA
| EOR &80
| STA &FEE7
| DEX
| BNE t1
| JMP again
| start: JMP begin
| org &FFFA
| word start, start, start
do tube
| begin: LDX #255
| TXS
| CLI
| again: CLD
| LDX #7
| t1: INC &80
| w1: BIT &FEFE
| BPL w1
| LDA &FEFF
| STA &0300,X
| DEX
| BNE t1
| JMP again
| start: LDX #66
| code: LDA &F7FF,X
| STA &F7FF,X
| DEX
| BNE code
| LDX #6
| vector: LDA &FFF9,X
| STA &FFF9,X
| DEX
| BNE vector
| JMP begin
| org &FFFA
| word start, start, start
each 21790, 21791, 21792, 21793, 21794, 21795, 21796, 21797, 21798, 21799, 21800, 21801, 21802, 21803
$ solo {} o %
= 0
do same {} o %
trace
do replays {}
end
";

#[test]
fn machines_talk_as_worked_out(rt: HostRuntime) -> Result<(), Fail> {
    all_hold(&rt, rt.alloc(), SCENES)
}
