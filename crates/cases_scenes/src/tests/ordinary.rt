//! Ordinary use: an operating system with a language, a filing system, a disc, a second processor,
//! typed keys and pictures; and the demonstration.
use super::scene::all_hold;
use std::test::Fail;

const SCENES: &str = "\
part sector
+ Sector 2 of a disc, which the filing system loads at 1900 and sa
+ ves in sector 7 of track 1. Sector 2 of a disc, which the filing
+  system loads at 1900 and saves in sector 7 of track 1. Sector 2
+  of a disc, which the filing system loads at 1900 and saves in s
end
part key
| at {1} down {3}
| at {2} up {3}
end
part typed
do key 200000 300000 64, 400000 500000 22, 600000 700000 65, 800000 900000 43, 1000000 1100000 23, 1200000 1300000 35, 1400000 1500000 36
| at 1550000 shot
do key 1600000 1700000 56, 1800000 1900000 41, 2000000 2100000 10, 2200000 2300000 25, 2400000 2500000 54
| at 2900000 shot
end
part gen
$ gen {1}
= 0
| seed {1}
| bytes 4096
| sum {2}
| ticks 1000000
end
# The operating system sets up a page of teletext, scans the keyboard on a timer's interrupts, shows each key as a mosaic and tells the
## second processor of it. The filing system's interrupts of the disc controller are at 0D00. It loads a sector and saves it in another;
## the language shows 16 of its bytes.
do os
| start: LDX #&FF
| TXS
| STX &71
| LDX #13
| next: STX &FE00
| LDA timing,X
| STA &FE01
| DEX
| BPL next
| LDA #&4B
| STA &FE20
| LDA #&17
| STA &7C00
do clock
| LDA #14
| STA &FE30
| JSR &8000
| LDA #15
| STA &FE30
| JSR &8000
| here: JMP here
| tick: PHA
| TXA
| PHA
| LDA &FE44
do scan
| TXA
| AND #&1F
| ORA #&20
| LDX &74
| STA &7C01,X
| INC &74
| out: PLA
| TAX
| PLA
| RTI
do page
| org &FFFA
| word &0D00, start, tick
dfs
| org &8000
| LDX #47
| copy: LDA nmi,X
| STA &0D00,X
| DEX
| BPL copy
| LDA #&29
| STA &FE80
| LDA #&40
| STA &77
| LDA #2
| STA &FE86
| LDA #&80
| JSR do
| LDA #0
| STA &77
| LDA #1
| STA &FE87
| LDA #&10
| JSR do
| LDA #&80
| STA &77
| LDA #7
| STA &FE86
| LDA #&A0
| do: LDX #0
| STX &76
| STX &78
| STA &FE84
| wait: LDX &78
| BEQ wait
| RTS
| nmi: PHA
| TXA
| PHA
| LDX &76
| LDA &FE84
| BIT &77
| BVS read
| BMI write
| ended: INC &78
| BNE out
| read: AND #&02
| BEQ ended
| LDA &FE87
| STA &1900,X
| INC &76
| BVS out
| write: AND #&02
| BEQ ended
| LDA &1900,X
| STA &FE87
| INC &76
| out: PLA
| TAX
| PLA
| RTI
| org &9FFF
| byte 0
lang
| org &8000
| LDX #15
| show: LDA &1900,X
| AND #&1F
| ORA #&20
| STA &7C29,X
| DEX
| BPL show
| LDA #&12
| STA &7C28
| RTS
| org &BFFF
| byte 0
do keyed
t
* 512 x E5
do sector
* 101632 x E5
with --os os --rom15 lang --rom14 dfs --tube tube --disc0 t --keys keys
keys
do typed
run 3000000 demo %
= 0
line demo.report frames 2
at demo.para 0080 64 22 65 43 23 35 36 56 41 10 25 54 00
at demo.host 7C00 17 24 22 25 23 23 35 36 36 21 30 25 34 00
at demo.host 7C28 12 33 25 23 34 2F 32 20 32 20 2F 26 20 21 20 24 29 00
at demo.host 1900 53 65 63 74 6F 72 20 32 20 6F 66 20 61 20 64 69
file demo.d0
* 512 x E5
do sector
* 3584 x E5
do sector
* 97792 x E5
size demo.000.ppm 491535
size demo.001.ppm 491535
none demo.002.ppm
keep
$ solo 3000000 demo %
= 0
same demo.report demo.host demo.para demo.d0 demo.000.ppm demo.001.ppm demo.trace
## The same at 4 MHz, in ticks of half the length: the host does the same.
keys
do key 400000 600000 64, 800000 1000000 22, 1200000 1400000 65, 1600000 1800000 43, 2000000 2200000 23, 2400000 2600000 35, 2800000 3000000 36
| at 3100000 shot
do key 3200000 3400000 56, 3600000 3800000 41, 4000000 4200000 10, 4400000 4600000 25, 4800000 5000000 54
| at 5800000 shot
run 6000000 demo --speed 4 %
= 0
line demo.report frames 2
at demo.para 0080 64 22 65 43 23 35 36 56 41 10 25 54 00
same demo.host demo.d0 demo.000.ppm demo.001.ppm
keys
do typed
alone run 3000000 demo %
= 6 no thread
none demo.report demo.host demo.para demo.d0 demo.000.ppm demo.trace
fails - 2
run 3000000 demo %
= 5 cannot write demo.para
same demo.report demo.host
none demo.para demo.d0 demo.000.ppm demo.trace
## The same saved, and taken up again half a million ticks further on.
fails - -
run 3000000 demo --save s %
= 0
keep
$ solo 3500000 demo %
= 0
keep
take s
$ resume t 3500000 demo
= 0
same demo.report demo.host demo.para demo.d0 demo.000.ppm demo.001.ppm demo.trace
# The demonstration of a seed: the sum of its bytes, sixteen times each, from a generator of another making.
do gen 1 5D40, 1 5D40, 0 DCE0, 1234567890123456789 2A70, 18446744073709551615 CD60
! gen 18446744073709551616
fails - 0
$ gen 1
= 5 cannot write -
";

#[test]
fn both_machines_show_keys_and_the_demonstration_has_its_sum(rt: HostRuntime) -> Result<(), Fail> {
    all_hold(&rt, rt.alloc(), SCENES)
}
