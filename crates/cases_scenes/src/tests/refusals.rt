//! Refusals: calls that fail, the order of causes, and the outputs after each.
use super::scene::all_hold;
use std::test::Fail;

const SCENES: &str = "\
part checked
ticks H R 0 {1}
fails {2} {3}
$ check t
= {4+}
none out
end
part para-fails
fails {1} {2}
$ replay para t 100 o --tube tube
= {3+}
none o.report o.para
end
part roms
$ replay host t 100 o --rom9 t --os os --rom7 t
= {}
none o.report o.host
end
part unread
fails {1} -
$ solo 7 o {3+}
= 2 cannot read {2}
none o.report o.host o.para o.trace
end
part short
fails - -
$ solo 7 o {2+}
= 3 bad image {1} 1
none o.report o.host o.para o.trace
end
part unwritten
fails - {1}
$ solo 7 o --tube tube --os os
= 5 cannot write {2}
end
# check: each call that fails is told.
do checked 40 0 - 2 cannot read t
ticks H R 0 40
fails - -
$ check absent
= 2 cannot read absent
none out
ticks H R 0 40
fails 1,2 1,2
do ok 1
none out
do checked 40 - 0 5 cannot write -, 00 - 0 5 cannot write -, 00 - - 8: wrong 1 40, 00 0 0 2 cannot read t
# asm: nothing is written before the text is known to be good.
t
+ NOP
fails 0 -
$ asm 6502 t out
= 2 cannot read t
none out
t
+ NOP
fails - 0
$ asm 6502 t out
= 5 cannot write out
none out
t
+ ?
fails - 0
$ asm 6502 t out
= 4 bad source 1 kind 1
none out
t
+ NOP
fails 1 1
$ asm 6502 t out
= 0
file out
x EA
# dis: each call that fails is told.
t
x EA
fails 0 -
$ dis 6502 t FFFF out
= 2 cannot read t
none out
t
x EA
fails - 0
$ dis 6502 t FFFF out
= 5 cannot write out
none out
t
x EA
fails 1 1
$ dis 6502 t FFFF out
= 0
file out
| org &FFFF
| NOP
# replay para: the first cause.
tube loop
ticks 14 H R 0 40
fails - -
$ replay para absent 100 o --tube absent
= 2 cannot read absent
none o.report o.para
fails - -
$ replay para t 100 o --tube absent
= 2 cannot read absent
none o.report o.para
do para-fails 0 - 2 cannot read t, 1 - 2 cannot read tube, - 0 5 cannot write o.report
fails - 1
$ replay para t 100 o --tube tube
= 5 cannot write o.para
line o.report ticks 100
none o.para
fails - 2
$ replay para t 100 o --tube tube
= 0
line o.report ticks 100
size o.para 65536
# replay para: lengths before the trace's form, its form before its answers.
do tube
| byte 0
| org &FFFE
| byte 0
t
+ x
$ replay para t 100 o --tube tube
= 3 bad image tube 2047
none o.report o.para
tube loop
t
| 0000000014 H R 0 00
+ x
$ replay para t 100 o --tube tube
= 4 bad trace 2 kind 1
none o.report o.para
# replay host: the first cause.
os letters
ticks H R 0 40
fails 0 -
do unlike 2 cannot read t
fails 1 -
do unlike 2 cannot read os
# replay host: the operating system before the ROMs, these by their slots, and lengths before forms.
os letters
ticks H R 0 40
fails 2 -
do roms 2 cannot read t
fails 3 -
do roms 2 cannot read t
fails - -
t
+ x
do os
| byte 0
| org &FFFE
| byte 0
do roms 3 bad image os 16383
os letters
do roms 3 bad image rom7 1
$ replay host t 100 o --os t --rom3 os
= 3 bad image os 1
none o.report o.host
do unlike 4 bad trace 1 kind 1
# replay host: puts that fail.
do os
| byte 2
do start C000
t
fails - 0
do unlike 5 cannot write o.report
fails - 1
$ replay host t 100 o --os os
= 5 cannot write o.host
line o.report ticks 100
none o.host
fails - 2
$ replay host t 100 o --os os
= 0
size o.host 32768
# solo: the first cause.
os letters
tube loop
t
+ x
do unread - none --tube no --os none, - no --rom0 os --tube no --os os, 0 os --tube tube --os os, 1 tube --tube tube --os os, 2 os --rom0 os --tube tube --os os
do short os --tube t --os t, tube --rom3 t --tube t --os os, rom3 --rom3 t --tube tube --os os
# solo: the files before the one that fails are whole, and no other is written.
os letters
tube loop
do unwritten 0 o.report
none o.report o.host o.para o.trace
do unwritten 1 o.host
line o.report ticks 7
none o.host o.para o.trace
do unwritten 2 o.para
line o.report ticks 7
size o.host 32768
none o.para o.trace
do unwritten 3 o.trace
line o.report ticks 7
size o.host 32768
size o.para 65536
none o.trace
fails - 4
$ solo 7 o --tube tube --os os
= 0
line o.report ticks 7
size o.host 32768
size o.para 65536
size o.trace 0
";

#[test]
fn each_call_that_fails_and_each_first_cause_is_told(rt: HostRuntime) -> Result<(), Fail> {
    all_hold(&rt, rt.alloc(), SCENES)
}
