//! A run that is saved, and continues from its session file.
use super::scene::all_hold;
use std::test::Fail;

const SCENES: &str = "\
# A saved session: two letters.
os letters
tube letters
$ solo 1000 o % --save half
= 0
size half 18864
keep
$ solo 2000 o % --save s
= 0
size s 18878
at s 0 42 54 55 42 01 03 00 00 07 D0 00 00 00 40 00
at s 49B7 00 00 00 03 FC 01 49
keep
back s
$ resume t 2000 o --save s
= 0
same o.report o.host o.para o.trace s
## A session of a session, which is another length, and each goes on below, at and above its moment.
$ resume t 1000 o --save half
= 0
size half 18864
keep
$ solo 1000 o % --save half
= 0
same o.report o.host o.para o.trace half
take half
$ resume t 1000 o --save half
= 0
same o.report o.host o.para o.trace half
keep
$ solo 2000 o % --save s
= 0
keep
$ resume t 2000 o --save s
= 0
same o.report o.host o.para o.trace s
$ resume t 0 o
= 0
line o.report kept 0
line o.report ticks 0
## With fewer accesses kept than there were: the moment is the tick of the last of them, and it is none of the session's.
$ solo 2000 o % --keep 48 --save few
= 0
keep
back few
$ resume t 2000 o --save s
= 0
line o.report tube 49
line o.report kept 49
$ resume t 2000 o --keep 48 --save few
= 0
same o.report o.trace few
$ solo 2000 o % --keep 0 --save none
= 0
at none 6 00 00 00 00 00
take none
$ resume t 2000 o --keep 48
= 0
same o.report o.trace
# A damaged session: of all its fields the first at fault is told.
os letters
tube letters
$ solo 2000 o % --save s
= 0
keep
back s
poke 18877 48
$ resume t 2000 o
= 8: wrong 49 49
none o.report
$ resume t 7 o
= 8: wrong 49 49
back s
cut 18877
$ resume t 2000 o
= 4 bad state 18877
none o.report
back s
each 5 05, 0 43
poke {}
$ resume t 2000 o
= 4 bad state {1}
end
each 4 02, 6 40, 10 09
back s
poke {}
$ resume t 2000 o
= 4 bad state {1}
end
back s
poke 14 01
$ resume t 2000 o
= 4 bad state 11
back s
cut 11
$ resume t 2000 o
= 4 bad state 11
cut 0
$ resume t 2000 o
= 4 bad state 0
# The host does not do what the session tells; at and above the end of the run the chip alone is asked.
os letters
tube letters
$ solo 2000 o % --save s
= 0
keep
back s
poke 18875 FB
$ resume t 2000 o
= 8: differs 49 00000003FC H R 1 --
none o.report
$ resume t 1020 o
= 8: differs 49 -
$ resume t 1019 o
= 0
line o.report kept 48
# A script, two devices, breaks and a sound file at 4 MHz.
os letters
tube letters
keys
| at 60 down 12
| at 900 break
| at 1500 up 12
t
$ solo 3000 o % --keys keys --speed 4 --plugs 2 --wav w --save s
= 0
at s 5 04
at s A 02
keep
back s
$ resume t 3000 o --wav w --save s
= 0
same o.report o.host o.para o.trace o.plug0 o.plug1 w s
$ resume t 1000 o --save half
= 0
take half
$ resume t 3000 o --wav w --save s
= 0
same o.report o.host o.para o.trace w s
## The script of a session is looked at behind the form of its file.
back s
poke 18531 62
$ resume t 3000 o
= 4 bad script 1 kind 1
poke 5 05
$ resume t 3000 o
= 4 bad state 5
## The words are read first; then the file.
fails 0 -
$ resume t 3000 o
= 2 cannot read t
! resume t 3000
fails - 0
back s
$ resume t 3000 o
= 5 cannot write o.report
fails - 5
$ resume t 3000 o --wav w --save s
= 5 cannot write o.plug1
fails - 6
$ resume t 3000 o --wav w --save s
= 5 cannot write w
fails - 7
$ resume t 3000 o --wav w --save s
= 5 cannot write s
same w
";

#[test]
fn a_session_goes_on(rt: HostRuntime) -> Result<(), Fail> {
    all_hold(&rt, rt.alloc(), SCENES)
}
