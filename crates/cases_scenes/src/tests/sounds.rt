//! Sound files.
use super::scene::all_hold;
use std::test::Fail;

const SCENES: &str = "\
part written
| LDA #&{}
| STA &FE4F
| LDA #8
| STA &FE40
| STX &FE40
end
# One write to the sound chip, at moment 21: a sample for each 32 microseconds, of a chip that is silent.
do os
| LDA #&FF
| STA &FE42
| STA &FE43
| LDA #&9F
| STA &FE4F
| LDA #8
| STA &FE40
| LDA #0
| STA &FE40
do here
t
$ replay host t 192 o --os os --wav w
= 0
file w
x 52 49 46 46 26 00 00 00 57 41 56 45 66 6D 74 20 10 00 00 00 01 00 01 00
x 12 7A 00 00 24 F4 00 00 02 00 10 00 64 61 74 61 02 00 00 00 00 00
size o.host 32768
$ replay host t 193 o --os os --wav w
= 0
size w 48
$ replay host t 0 --wav w o --os os
= 0
at w 0000 52 49 46 46 24 00 00 00
size w 44
$ replay host t 192 o --os os
= 0
none w
# A tone of period 16, which turns over first in the chip's 1,025th clock, and white noise: as a model of the chip in another language has it.
do os
| LDA #&FF
| STA &FE42
| STA &FE43
| LDX #0
do written 80
| LDA #1
| STA &FE4F
| LDA #8
| STA &FE40
| STX &FE40
do written 92, E4, F6
do here
tube loop
t
$ replay host t 36000 o --os os --plugs 2 --wav w
= 0
size w 420
at w 0000 52 49 46 46 9C 01 00 00 57 41 56 45 66 6D 74 20 10 00 00 00 01 00 01 00
at w 002C 00 00 00 00 30 14 30 14 30 14 30 14 30 14 30 14 30 14 30 14 30 14 30 14
at w 012C 00 00 00 00 30 14 30 14 00 00 00 00 30 14 30 14 00 00 00 00 30 14 30 14
at w 018C 09 08 09 08 39 1C 39 1C 00 00 00 00 30 14 30 14 00 00 00 00 30 14 30 14
keep
$ solo 36000 o % --wav w
= 0
same w
run 36000 o --tube tube --wav w --os os
= 0
same w
## It is written last, and where that fails, all before it is whole.
fails - 4
$ replay host t 36000 o --os os --plugs 2 --wav w
= 5 cannot write w
same o.report o.host o.plug0 o.plug1
none w
fails - 3
$ replay host t 36000 o --os os --plugs 2 --wav w
= 5 cannot write o.plug1
same o.plug0
none w
fails - -
## Where its name is that of another output, it stands in the place of that one.
$ replay host t 36000 w --os os --wav w.report
= 0
size w.report 420
size w.host 32768
## The same sound by ticks of half the length.
t
| T2
$ replay host t 72000 o --os os --speed 4 --wav w
= 0
same w
## Its name is a name, and it is given once, where the host is there.
! replay host t 7 o --os os --wav
! replay host t 7 o --os os --wav ''
! replay host t 7 o --os os --wav -w
! replay host t 7 o --os os --wav w --wav w
! replay para t 7 o --tube tube --wav w
! solo 7 o % --wav -
";

#[test]
fn sound_files_have_what_is_heard(rt: HostRuntime) -> Result<(), Fail> {
    all_hold(&rt, rt.alloc(), SCENES)
}
