//! The second processor at 4 MHz, compared with one at 3 MHz: ticks of 1/12 and of 1/6 microsecond,
//! and the line of a trace that gives the speed.
use super::scene::all_hold;
use std::test::Fail;

const SCENES: &str = "\
# One letter: the same cycle is another tick.
os loop
do tube
| LDA #&48
| STA &FEF9
| stop: JMP stop
do start F800
$ solo 40 turbo % --speed 4
= 0
file turbo.report
| ticks 40
| host PC=0000 A=00 X=00 Y=00 S=00 P=20
| para PC=F805 A=48 X=00 Y=00 S=FD P=24
| tube 1
| kept 1
| frames 0
file turbo.trace
| T2
| 0000000024 P W 1 48
keep
run 40 turbo --speed 4 %
= 0
same turbo.report turbo.host turbo.para turbo.trace
$ solo 40 turbo % --speed 3
= 0
file turbo.trace
| 0000000018 P W 1 48
$ solo 40 turbo %
= 0
file turbo.trace
| 0000000018 P W 1 48
$ solo 36 turbo % --speed 4
= 0
file turbo.trace
| T2
! solo 40 turbo % --speed 2
! solo 40 turbo % --speed 04
! solo 40 turbo % --speed
! solo 40 turbo % --speed 4 --speed 4
! check t --speed 4
! gen 1 --speed 4
# A trace of each clock is checked, and replayed by a machine of its clock alone. A text outside its form is told as that.
tube loop
ticks 62 H W 0 A0, 65 H W 0 20
do ok 2
$ replay para t 200 o --tube tube --speed 4
= 4 bad trace 1 kind 4
none o.report
$ replay para t 200 o --tube tube --speed 3
= 0
file o.report
| ticks 200
| para PC=F800 A=00 X=00 Y=00 S=FA P=24
| tube 0
t
| T2
do entries 062 H W 0 A0, 065 H W 0 20
do ok 2
$ replay para t 200 o --speed 4 --tube tube
= 0
file o.report
| ticks 200
| para PC=F800 A=00 X=00 Y=00 S=FA P=24
| tube 0
$ replay para t 200 o --tube tube
= 4 bad trace 1 kind 4
t
| T2
| 0000000000 H R 0 40
do ok 1
t
| T2
| 0000000024 H R 0 40
do ok 1
t
| T2
| 0000000009 P R 0 40
do ok 1
t
+ T2
do bad 1 kind 1
$ replay para t 200 o --tube tube --speed 4
= 4 bad trace 1 kind 1
t
| T2
| T2
do bad 1 kind 1
t
| T2
do entries 009 P R 0 40, 009 P R 0 40
do bad 2 kind 2
t
| T2
| 0000000009 P R 0 40
| 0000000009 P R 0 4
$ replay para t 200 o --tube tube
= 4 bad trace 2 kind 1
# The clock of a trace is looked at before a script, and after the images.
os loop
t
| T2
keys
| at
$ replay host t 100 o --os os --keys keys
= 4 bad trace 1 kind 4
$ replay host t 100 o --os os --keys keys --speed 4
= 4 bad script 1 kind 1
$ replay host t 100 o --os t --keys keys
= 3 bad image os 3
# Two letters: with a second processor at 4 MHz the host looks 32 times in vain before the first of them, where it looked 43 times.
os letters
tube letters
$ solo 4000 o % --speed 4
= 0
file o.report
| ticks 4000
| host PC=C011 A=49 X=02 Y=00 S=FD P=27
| para PC=F815 A=49 X=FF Y=00 S=FD P=24
| tube 38
| kept 38
| frames 0
file o.trace
| T2
do entries 048 H R 0 40, 072 H R 0 40, 09C H R 0 40, 0C6 H R 0 40, 0F0 H R 0 40, 11A H R 0 40, 144 H R 0 40, 16E H R 0 40, 198 H R 0 40, 1C2 H R 0 40, 1EC H R 0 40, 216 H R 0 40, 240 H R 0 40
do entries 26A H R 0 40, 294 H R 0 40, 2BE H R 0 40, 2E8 H R 0 40, 312 H R 0 40, 33C H R 0 40, 366 H R 0 40, 390 H R 0 40, 3BA H R 0 40, 3E4 H R 0 40, 40E H R 0 40, 438 H R 0 40, 462 H R 0 40
do entries 48C H R 0 40, 4B6 H R 0 40, 4E0 H R 0 40, 50A H R 0 40, 534 H R 0 40, 55E H R 0 40, 567 P W 1 48, 579 P W 1 49, 588 H R 0 C0, 5AC H R 1 48, 606 H R 0 C0, 62A H R 1 49
trace
$ replay host t 4000 o --os os --speed 4
= 0
same o.host
$ replay para t 4000 o --tube tube --speed 4
= 0
same o.para
run 4000 o % --speed 4
= 0
same o.report o.host o.para o.trace
";

#[test]
fn a_speed_is_that_of_ticks_and_traces(rt: HostRuntime) -> Result<(), Fail> {
    all_hold(&rt, rt.alloc(), SCENES)
}
