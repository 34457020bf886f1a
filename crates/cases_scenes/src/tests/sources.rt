//! Source texts and images.
use super::scene::all_hold;
use std::test::Fail;

const SCENES: &str = "\
part bad-source
$ asm 6502 t out
= 4 bad source {}
none out
end
part too-long
t
* {1} x EA
$ dis 6502 t {2} out
= 3 bad image image {1}
none out
end
part fits
t
* {1} x EA
$ dis 6502 t {2} out
= 0
line out org &{2}
end
# A small text is assembled and disassembled.
t
| org &C000
| start: LDA #&41
| STA &0070
| BNE start
$ asm 6502 t out
= 0
file out
x A9 41 8D 70 00 D0 F9
take out
$ dis 6502 t C000 out
= 0
file out
| org &C000
| LDA #&41
| STA &0070
| BNE &C000
# A form of one part alone is refused for the other.
t
+ LDA (&12)
do bad-source 1 kind 2
$ asm 65c02 t out
= 0
file out
x B2 12
# A source text is told with its line and kind.
t
| NOP
| ?
do bad-source 2 kind 1
t
| LDA (&1234),Y
do bad-source 1 kind 2
t
| JMP there
do bad-source 1 kind 3
t
| a1: NOP
| NOP
| a1: NOP
do bad-source 3 kind 4
t
| org 2
| NOP
| org 1
do bad-source 3 kind 5
t
| LDA #256
do bad-source 1 kind 5
t
| org &FFFF
| NOP
| NOP
do bad-source 3 kind 6
# The first pass goes before the second.
t
| JMP there
| NOP
| ?
do bad-source 3 kind 1
# An image ends with the memory.
do fits 65536 0000
do too-long 65537 0000
do fits 1 FFFF
do too-long 2 FFFF
t
$ dis 6502 t FFFF out
= 0
line out org &FFFF
do too-long 16385 C000
# A source of 4,194,304 bytes and an image of 1,048,576 are read, and one byte more is too long.
t
* 4194304 |
$ asm 6502 t out
= 0
size out 0
t
* 4194305 |
$ asm 6502 t out
= 2 too long t
none out
t
* 1048576 |
$ dis 6502 t 0000 out
= 3 bad image image 1048576
none out
t
* 1048577 |
$ dis 6502 t 0000 out
= 2 too long t
none out
each 6502, 65c02
# A source of 65,536 bytes of code for the {}, each in a line of its own.
t
* 65536 | NOP
$ asm {} t out
= 0
file out
* 65536 x EA
take out
$ dis {} t 0000 out
= 0
file out
| org &0000
* 65536 | NOP
end
";

#[test]
fn source_texts_and_images_are_made_and_told(rt: HostRuntime) -> Result<(), Fail> {
    all_hold(&rt, rt.alloc(), SCENES)
}
