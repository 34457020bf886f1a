//! Failures: calls that fail in ordinary use, images one byte short or long, and files that are
//! cut.
use super::scene::all_hold;
use std::test::Fail;

const CALLS: &str = "\
# Ordinary use where calls fail, one after the other: each is told by its name, and what was written before is whole.
os letters
dfs
| org &8000
| RTS
| org &9FFF
| byte 0
lang
| org &8000
| RTS
| org &BFFF
| byte 0
tube letters
t
* 102400 x E5
keys
| at 200000 down 64
| at 400000 down 22
| at 600000 down 65
| at 800000 down 43
| at 1000000 down 23
| at 1200000 down 35
| at 1400000 down 36
| at 1550000 shot
| at 1600000 down 56
| at 1800000 down 41
| at 2000000 down 10
| at 2200000 down 25
| at 2400000 down 54
| at 2900000 shot
with --os os --rom15 lang --rom14 dfs --tube tube --disc0 game.ssd --keys keys
outputs demo.report demo.host demo.para demo.d0 demo.000.ppm demo.001.ppm demo.trace w s
each 0 os, 1 tube, 2 dfs, 3 lang, 4 game.ssd, 5 keys
fails {1} -
run 3000000 demo %
= 2 cannot read {2}
left 0
end
run 3000000 demo --speed 4 --wav w %
= 2 cannot read keys
left 0
fails - -
run 3000000 demo %
= 0
size demo.001.ppm 491535
size demo.trace 980
keep
each 0 demo.report, 1 demo.host, 2 demo.para, 3 demo.d0, 4 demo.000.ppm, 5 demo.001.ppm, 6 demo.trace
fails - {1}
run 3000000 demo %
= 5 cannot write {2}
left {1}
end
## With the sound file, which is written behind all these, and the same at 4 MHz.
fails - 7
run 3000000 demo --wav w %
= 5 cannot write w
left 7
fails - -
run 6000000 demo --wav w --speed 4 %
= 0
size demo.trace 763
keep
each 6 demo.trace, 7 w
fails - {1}
run 6000000 demo --wav w --speed 4 %
= 5 cannot write {2}
left {1}
end
## Saved, and taken up again.
fails - -
run 3000000 demo --wav w --save s %
= 0
keep
fails - 8
run 3000000 demo --wav w --save s %
= 5 cannot write s
left 8
fails 5 -
run 3000000 demo --wav w --save s %
= 2 cannot read keys
left 0
back s
fails 0 -
$ resume t 3000000 demo --wav w --save s
= 2 cannot read t
left 0
fails 1 9
$ resume t 3000000 demo --wav w --save s
= 0
left 9
each 0 demo.report, 3 demo.d0, 5 demo.001.ppm, 6 demo.trace, 7 w, 8 s
fails - {1}
$ resume t 3000000 demo --wav w --save s
= 5 cannot write {2}
left {1}
end
";

const FILES: &str = "\
part image
= 3 bad image {}
left 0
end
part script
keys
| at 5 shot
+ {}
$ solo 100 o % --keys keys
= 4 bad script 2 kind 1
left 0
end
# Images one byte short and one byte long. The first of them is told, and nothing is written.
os loop
tube loop
each 16383, 16385
t
* {} x EA
$ solo 7 o --os t --tube tube
do image os {}
run 7 o --speed 4 --os t --tube tube
do image os {}
$ replay host keys 7 o --os t
do image os {}
end
each 16383, 16385, 8191, 8193
t
* {} x EA
$ solo 7 o % --rom0 t
do image rom0 {}
run 7 o % --rom15 t
do image rom15 {}
$ replay host keys 7 o --os os --rom9 t
do image rom9 {}
end
each 2047, 2049
t
* {} x EA
$ solo 7 o --os os --tube t --rom0 t
do image tube {}
run 7 o --os os --tube t --speed 4
do image tube {}
$ replay para keys 7 o --tube t
do image tube {}
end
each 959, 961
t
* {} x 3F
run 7 o % --font t --disc0 t
do image font {}
end
t
* 204799 x 07
run 7 o % --disc1 t
= 0
size o.d1 204799
t
* 204801 x 07
run 7 o % --disc0 t.dsd --disc1 t
do image disc1 204801
t
* 409599 x 07
run 7 o % --disc0 t.dsd
= 0
size o.d0 409599
t
* 409601 x 07
run 7 o % --disc0 t.dsd
do image disc0 409601
# A trace that is cut in its last line, at each place, and one that is cut in its first.
os loop
tube loop
cuts 000000001C P R 2 7F
t
| 0000000014 H R 0 40
+ {}
do bad 2 kind 1
end
$ replay host t 2000 o --os os
= 4 bad trace 2 kind 1
none o.report o.host
$ replay para t 2000 o --tube tube
= 4 bad trace 2 kind 1
none o.report o.para
$ follow para t 2000 o --tube tube
= 4 bad trace 2 kind 1
none o.list
t
| T2
| 0000000014 H R 0 40
+ 000000001C H X 0 0
do bad 2 kind 1
$ replay para t 2000 o --speed 4 --tube tube
= 4 bad trace 2 kind 1
none o.report o.para
$ follow host t 2000 o --speed 4 --os os
= 4 bad trace 2 kind 1
none o.list
t
+ T
do bad 1 kind 1
t
+ 0
do bad 1 kind 1
# A script that is cut in its last line, at each place.
os loop
tube loop
cuts at 6 down 41
do script {}
end
cuts adc 3 FFF0
do script at 6 {}
end
cuts break
do script at 6 {}
end
each down 41, adc 3 FFF0, break
keys
| at 5 shot
+ at 6 {}
run 100 o % --keys keys --wav w --speed 4
= 4 bad script 2 kind 1
left 0
end
$ replay host t 100 o --os os --keys keys --wav w
= 4 bad script 2 kind 1
none o.report w
run 100 o % --keys keys --save s
= 4 bad script 2 kind 1
none o.report o.trace s
$ follow host t 100 o --os os --keys keys
= 4 bad script 2 kind 1
none o.list
";

#[test]
fn each_call_that_fails_in_ordinary_use_is_told(rt: HostRuntime) -> Result<(), Fail> {
    all_hold(&rt, rt.alloc(), CALLS)
}

#[test]
fn wrong_lengths_and_cut_files_are_told(rt: HostRuntime) -> Result<(), Fail> {
    all_hold(&rt, rt.alloc(), FILES)
}
