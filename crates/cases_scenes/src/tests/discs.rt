//! The discs, from files to files.
use super::scene::all_hold;
use std::test::Fail;

const SCENES: &str = "\
# A disc that nothing is written to stays as it was, in its drive.
do os
do here
tube loop
t
x 07 01 02
$ solo 700 o % --disc0 t
= 0
file o.d0
x 07 01 02
none o.d1
size o.trace 0
$ solo --disc1 t 700 o %
= 0
none o.d0
file o.d1
x 07 01 02
$ solo 700 --disc1 t o % --disc0 os
= 0
size o.d0 16384
file o.d1
x 07 01 02
$ solo 700 o %
= 0
none o.d0 o.d1
# A replay leaves the discs too. The disc's image is that of the trace.
do os
do here
tube loop
ticks H R 0 40
$ replay host t 0 o --os os --disc1 t
= 0
none o.d0
file o.d1
| 0000000000 H R 0 40
# Lengths: an SSD has at most 204,800 bytes and a DSD 409,600.
do os
do here
tube loop
t
* 204800 x 07
$ solo 7 o % --disc0 t
= 0
size o.d0 204800
$ solo 7 o % --disc1 t.dsd
= 0
size o.d1 204800
t
* 204801 x 07
$ solo 7 o % --disc0 t
= 3 bad image disc0 204801
none o.report o.d0
$ solo 7 o % --disc1 t --disc0 t.dsd
= 3 bad image disc1 204801
$ solo 7 o % --disc1 t --disc0 t
= 3 bad image disc0 204801
$ solo 7 o % --disc1 t.dsd --disc0 t.dsd
= 0
size o.d0 204801
size o.d1 204801
$ replay host t 7 o --os os --disc0 t
= 3 bad image disc0 204801
$ replay host t 7 o --os os --disc1 t
= 3 bad image disc1 204801
$ replay host t 7 o --os os --disc1 t --rom3 tube
= 3 bad image rom3 2048
$ replay host t 7 o --os os --disc1 t.dsd
= 4 bad trace 1 kind 1
t
* 409600 x 07
$ solo 7 o % --disc0 t.dsd
= 0
size o.d0 409600
t
* 409601 x 07
$ solo 7 o % --disc0 t.dsd
= 3 bad image disc0 409601
$ solo 7 o % --disc0 t
= 3 bad image disc0 409601
t
* 1048577 x 07
$ solo 7 o % --disc0 t.dsd
= 2 too long t.dsd
# The discs are read last, and written between the memories and the trace.
do os
do here
tube loop
ticks H R 0 40
fails 2 -
$ solo 7 o --disc1 t --disc0 t.dsd %
= 2 cannot read t.dsd
fails 3 -
$ solo 7 o --disc1 t --disc0 t.dsd %
= 2 cannot read t
fails - 3
$ solo 7 o --disc1 t --disc0 t.dsd %
= 5 cannot write o.d0
size o.para 65536
none o.d0 o.d1 o.trace
fails - 4
$ solo 7 o --disc1 t --disc0 t.dsd %
= 5 cannot write o.d1
file o.d0
| 0000000000 H R 0 40
none o.d1 o.trace
fails - 3
$ solo 7 o --disc1 t %
= 5 cannot write o.d1
fails - 5
$ solo 7 o --disc1 t --disc0 t.dsd %
= 5 cannot write o.trace
size o.d1 20
none o.trace
fails - 2
$ replay host t 0 o --disc1 t --disc0 t.dsd --os os
= 5 cannot write o.d0
size o.host 32768
fails - 3
$ replay host t 0 o --disc1 t --disc0 t.dsd --os os
= 5 cannot write o.d1
size o.d0 20
# A program writes 5A to each byte of sector 1 of track 0. The image of 3 bytes becomes as long as that sector's end.
do os
| LDA #&29
| STA &FE80
| LDA #1
| STA &FE86
| LDA #&A0
| STA &FE84
| here: JMP here
| org &C200
| LDA &FE84
| AND #2
| BEQ done
| LDA #&5A
| STA &FE87
| done: RTI
| org &FFFA
| word &C200, &C000, 0
tube loop
t
x 07 01 02
$ solo 400000 o % --disc0 t --disc1 t
= 0
size o.d0 512
at o.d0 0000 07 01 02 00
at o.d0 00FF 00 5A 5A
at o.d0 01FE 5A 5A
file o.d1
x 07 01 02
# Sectors are read and written on both sides of a disc: sector 2 of track 0 on side 0 to sector 7 of track 1 on side 1, and sector 3 of
## track 1 on side 1 to sector 5 of the track on side 0. Every other byte stays. In two threads it is the same.
do os
| start: LDX #&FF
| TXS
| LDX #2
| LDA #&29
| JSR get
| LDA #0
| STA &73
| LDA #1
| STA &FE87
| LDA #&10
| JSR do
| LDX #7
| LDA #&2D
| JSR put
| LDX #3
| LDA #&2D
| JSR get
| LDX #5
| LDA #&29
| JSR put
| here: JMP here
| get: LDY #&40
| STY &73
| STA &FE80
| STX &FE86
| LDA #&80
| BNE do
| put: LDY #&80
| STY &73
| STA &FE80
| STX &FE86
| LDA #&A0
| do: LDX #0
| STX &70
| STX &72
| STA &FE84
| wait: LDX &72
| BEQ wait
| RTS
| nmi: PHA
| TXA
| PHA
| LDX &70
| LDA &FE84
| BIT &73
| BVS read
| BMI write
| ended: INC &72
| JMP out
| read: AND #&02
| BEQ ended
| LDA &FE87
| STA &3000,X
| INC &70
| JMP out
| write: AND #&02
| BEQ ended
| LDA &3000,X
| STA &FE87
| INC &70
| out: PLA
| TAX
| PLA
| RTI
| org &FFFA
| word nmi, start, start
tube loop
t
* 512 x 11
x 00..FF
* 1792 x 11
* 2560 x 22
* 2560 x 33
* 768 x 44
x FF..00
* 1536 x 44
$ solo 2000000 o % --disc1 t --disc0 t.dsd
= 0
file o.d0
* 512 x 11
x 00..FF
* 1792 x 11
* 2560 x 22
* 1280 x 33
x FF..00
* 1024 x 33
* 768 x 44
x FF..00
* 768 x 44
x 00..FF
* 512 x 44
size o.d1 10240
keep
run 2000000 o % --disc1 t --disc0 t.dsd
= 0
same o.report o.host o.para o.d0 o.d1 o.trace
";

#[test]
fn discs_are_read_and_left(rt: HostRuntime) -> Result<(), Fail> {
    all_hold(&rt, rt.alloc(), SCENES)
}
