//! Frames: taken by shots of a key script, and written as pixmaps.
use super::scene::all_hold;
use std::test::Fail;

const SCENES: &str = "\
part black
| P6
| 640 256
| 255
* 491520 x 00
end
# A shot before the first frame is finished is black. One at the last tick is not taken any more.
os loop
tube loop
keys
| at 1 shot
| at 300000 shot
t
$ replay host t 300000 o --os os --keys keys
= 0
line o.report frames 1
file o.000.ppm
do black
none o.001.ppm
$ solo 300001 o % --keys keys
= 0
line o.report frames 2
file o.000.ppm
do black
size o.001.ppm 491535
none o.002.ppm
$ replay host t 1 o --keys keys --os os
= 0
line o.report frames 0
none o.000.ppm
# A screen of two colours, 320 dots a line, whose first byte is A5. Another shot of the same tick is another file.
do os
do timed
| LDA #&08
| STA &FE20
| LDX #15
| entry: LDA colours,X
| STA &FE21
| DEX
| BPL entry
| LDA #&A5
| STA &5800
| here: JMP here
| timing: byte &3F,&28,&31,&24,&26,0,&20,&22,0,7,0,0,&0B,0
| colours: byte &07,&17,&27,&37,&47,&57,&67,&77,&80,&90,&A0,&B0,&C0,&D0,&E0,&F0
do begin
tube loop
keys
| at 1 shot
| at 400000 shot
| at 400000 shot
$ solo 400001 o --tube tube --os os --keys keys
= 0
line o.report frames 3
file o.000.ppm
do black
at o.001.ppm 000F FF FF FF FF FF FF 00 00 00 00 00 00 FF FF FF FF FF FF 00 00 00 00 00 00 00 00 00 00 00 00 FF FF FF FF FF FF 00 00 00 00 00 00 FF FF FF FF FF FF 00 00 00
at o.001.ppm 078F 00 00 00
size o.001.ppm 491535
keep
run 400001 o --tube tube --os os --keys keys
= 0
same o.report o.000.ppm o.001.ppm o.002.ppm
keys
| at 2 shot
| at 800000 shot
| at 800000 shot
$ solo 800001 o --tube tube --os os --keys keys --speed 4
= 0
same o.000.ppm o.001.ppm o.002.ppm
$ solo 800000 o --tube tube --os os --keys keys --speed 4
= 0
line o.report frames 1
# A page of teletext with one letter, whose shape in the font has all its dots: 16 by 10 pixels. Without a font it is blank.
do os
do timed
| LDA #&4B
| STA &FE20
| LDA #&41
| STA &7C00
| here: JMP here
do page
do begin
tube loop
keys
| at 400000 shot
t
* 960 x 3F
$ solo 400001 o --tube tube --os os --keys keys --font t
= 0
at o.000.ppm 078F 00 00 00
at o.000.ppm 0F0F FF FF FF FF FF FF FF FF FF FF FF FF FF FF FF FF FF FF FF FF FF FF FF FF FF FF FF FF FF FF FF FF FF FF FF FF FF FF FF FF FF FF FF FF FF FF FF FF 00 00 00
at o.000.ppm 528F FF FF FF FF FF FF FF FF FF FF FF FF FF FF FF FF FF FF FF FF FF FF FF FF FF FF FF FF FF FF FF FF FF FF FF FF FF FF FF FF FF FF FF FF FF FF FF FF 00 00 00
at o.000.ppm 5A0F 00 00 00
$ solo 400001 o --tube tube --os os --keys keys
= 0
at o.000.ppm 0F0F 00 00 00
# A font has 960 bytes. It is read after the ROMs and before the discs, and its length is tested there.
os loop
tube loop
t
* 959 x 3F
$ solo 7 o % --font t
= 3 bad image font 959
none o.report
$ replay host keys 7 o --os os --font t
= 3 bad image font 959
$ replay host keys 7 o --os os --disc0 n --font t
= 2 cannot read n
$ replay host keys 7 o --os os --font n --disc0 no --rom3 t
= 2 cannot read n
$ replay host keys 7 o --os os --font t --rom3 t
= 3 bad image rom3 959
t
* 961 x 3F
$ solo 7 o % --font t
= 3 bad image font 961
t
* 204801 x 3F
$ solo 7 o % --disc0 t --font os
= 3 bad image font 16384
$ solo 7 o % --font n
= 2 cannot read n
# A frame that cannot be written: the files before it are whole.
os loop
tube loop
t
x 07
keys
| at 1 shot
| at 2 shot
fails - 5
$ solo 7 o % --keys keys --disc0 t
= 5 cannot write o.001.ppm
file o.d0
x 07
file o.000.ppm
do black
none o.trace
";

#[test]
fn shots_are_written_as_pixmaps(rt: HostRuntime) -> Result<(), Fail> {
    all_hold(&rt, rt.alloc(), SCENES)
}
