//! Key scripts: typed keys and interrupts of a timer, worked out by hand, and the refusals of a
//! script.
use super::scene::all_hold;
use std::test::Fail;

const SCENES: &str = "\
part refused
$ solo 100 o % --keys t
= 4 bad script {}
none o.report
end
# Timer 1 asks every 10,000 microseconds, 49 times below tick 3,000,000. The handler counts at 0070 and tells the second processor of each key.
do os
| start: LDX #&FF
| TXS
| STX &71
do clock
| here: JMP here
| tick: LDA &FE44
do scan
| out: RTI
| org &FFFA
| word start, start, tick
do keyed
t
| at 600000 down 54
| at 900000 up 54
| at 1200000 down 25
| at 1500000 up 25
$ solo 3000000 o % --keys t
= 0
at o.host 0070 31 FF
at o.para 0080 54 25 00
trace
$ replay para t 3000000 o --tube tube
= 0
same o.para
t
| at 600000 down 54
$ solo 3000000 o --tube tube --keys t --os os
= 0
at o.host 0070 31 54
at o.para 0080 54 00
t
$ solo 3000000 o --tube tube --os os
= 0
at o.host 0070 31 FF
at o.para 0080 00 00
# The first line that is outside the form, or the order, or has the 257th shot.
os loop
do tube
| here: JMP here
| org &FFFC
| word here, 0
t
| at 5 shot
| at 5 down 7F
| at 5 up 80
do refused 3 kind 1
t
| at 5 shot
+ at 6 shot
do refused 2 kind 1
t
| at 5 shot
| at 4 shot
do refused 2 kind 2
t
* 257 | at 1073741824 shot
do refused 257 kind 3
t
* 256 | at 1073741824 shot
$ solo 100 o % --keys t
= 0
line o.report frames 0
## A script of 1,048,576 bytes is read, and one byte more is too long.
t
* 55188 | at 1000000 down 41
+ at 1
do refused 55189 kind 1
t
* 55188 | at 1000000 down 41
+ at 10
$ solo 100 o % --keys t
= 2 too long t
none o.report
# A replay tests the form of the trace first, then that of the script, and then the trace's answers.
os loop
t
| 0000000000 H R
$ replay host t 100 o --os os --keys t
= 4 bad trace 1 kind 1
ticks H R 0 00
$ replay host t 100 o --os os --keys t
= 4 bad script 1 kind 1
none o.report
t
$ replay host t 100 o --os os --keys t
= 0
line o.report frames 0
";

#[test]
fn keys_are_typed_by_a_script(rt: HostRuntime) -> Result<(), Fail> {
    all_hold(&rt, rt.alloc(), SCENES)
}
