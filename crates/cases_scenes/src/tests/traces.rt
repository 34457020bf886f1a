//! Traces. Their answers were worked out by hand from Application Note 004 and this project's
//! profile.
use super::scene::all_hold;
use std::test::Fail;

const SCENES: &str = "\
part fills
| 00000000{1} P W 1 {2}
| 00000000{3} P R 0 40
end
part takes
| 00000000{1} H R 1 {2}
end
# Statuses and bytes at power-on. Register 3 to the host holds one byte 00.
ticks H R 0 40, P R 0 40, H R 2 7F, P R 2 7F, H R 4 FF, P R 4 3F, H R 6 7F, P R 6 7F
do ok 8
ticks H R 1 00, H R 3 00, H R 5 00, H R 7 00, P R 1 00, P R 3 00, P R 5 00, P R 7 00
do ok 8
# Register 1 to the parasite: one byte, answered again when it is empty.
ticks H W 1 77, H R 0 00, P R 0 C0, P R 1 77, P R 1 77, P R 0 40, H R 0 40
do ok 7
ticks H W 1 11, H W 1 22, P R 1 22, P R 1 22
do ok 4
# Register 1 to the host: in the order of writing.
ticks P W 1 01, P W 1 02, P W 1 03, H R 0 C0, H R 1 01, H R 1 02, H R 1 03, H R 0 40, H R 1 03
do ok 9
# Registers 2 and 4, both ways at once.
ticks H W 3 AA, H R 2 3F, P R 2 FF, P W 3 BB, H R 2 BF, P R 2 BF, P R 3 AA, H R 3 BB, H R 2 7F, P R 2 7F
do ok 10
ticks H W 7 AA, H R 6 3F, P R 6 FF, P W 7 BB, H R 6 BF, P R 6 BF, P R 7 AA, H R 7 BB, H R 6 7F, P R 6 7F
do ok 10
ticks P W 3 01, P W 3 02, H R 3 02, H R 3 02, P W 7 03, P W 7 04, H R 7 04, H R 7 04
do ok 8
# Register 3 for one byte, to the host, to the parasite, and written twice.
ticks H R 5 00, H R 4 7F, P R 4 FF, P W 5 66, H R 4 FF, P R 4 3F, H R 5 66, H R 4 7F
do ok 8
ticks H W 5 55, H R 4 BF, P R 4 BF, P R 5 55, P R 5 55, P R 4 3F
do ok 6
ticks H W 5 11, H W 5 22, P R 5 22, P R 5 22
do ok 4
# V set: one byte is not yet available, and there is room for a second.
ticks H W 0 90, H R 0 50, P R 0 50, H R 4 7F, P R 4 7F
do ok 5
# Two bytes to the parasite; a third is ignored.
ticks H W 0 90, H W 5 11, P R 4 7F, H R 4 7F, H W 5 22, P R 4 FF, H R 4 3F, H W 5 33, P R 5 11, P R 4 7F, P R 5 22, P R 5 22
do ok 12
# Two bytes to the host, the first of them that of power-on; N where none is left.
ticks H W 0 90, P W 5 66, P R 4 3F, H R 4 FF, P W 5 77, H R 5 00, H R 4 7F, H R 5 66, P R 4 FF, H R 5 66
do ok 10
# V cleared over two bytes: available, and the next write replaces both.
ticks H W 0 90, H W 5 11, H W 5 22, H W 0 10, P R 4 BF, H R 4 BF, H W 5 33, P R 5 33, P R 5 33
do ok 9
# Each flag set and seen by both sides; P cleared alone, then all.
ticks H W 0 A0, H R 0 60, H W 0 90, H R 0 70, H W 0 88, H R 0 78, H W 0 84, H R 0 7C, H W 0 82, H R 0 7E, H W 0 81, H R 0 7F, P R 0 7F, H W 0 20, H R 0 5F, H W 0 3F, H R 0 40
do ok 17
# A flag that is not marked stays, by S set and clear.
ticks H W 0 82, H W 0 81, H R 0 43, H W 0 02, H R 0 41
do ok 5
# The flags do not show in the other statuses; V alone changes that of register 3.
ticks H W 0 AF, H R 2 7F, H R 6 7F, P R 2 7F, P R 6 7F, H R 4 FF, P R 4 3F
do ok 7
ticks H W 0 90, H R 2 7F, H R 4 7F, H R 6 7F, H W 0 10, H R 4 FF
do ok 6
# T with S clears all registers; T without S does nothing.
ticks H W 1 77, P W 1 01, H W 3 AA, H W 0 C0, H R 0 40, P R 0 40, H R 1 00, P R 1 00, P R 3 00, H R 4 FF, H R 5 00
do ok 11
ticks H W 1 77, H W 0 40, P R 0 C0, P R 1 77
do ok 4
# T keeps the flags, takes those marked with it, acts once, and forgets what was read.
ticks H W 0 83, H W 0 C0, H R 0 43
do ok 3
ticks H W 1 77, H W 0 E0, H R 0 60, P R 1 00
do ok 4
ticks H W 0 C0, H W 1 12, P R 1 12
do ok 3
ticks H W 1 77, P R 1 77, H W 0 C0, P R 1 00
do ok 4
# T refills register 3 to the host, so that N is false again.
ticks H R 5 00, P R 4 FF, H W 0 C0, P R 4 3F
do ok 4
# Writes to a status are ignored, the parasite's to number 0 among them.
ticks H W 2 FF, H W 4 FF, H W 6 FF, P W 0 FF, P W 2 FF, P W 4 FF, P W 6 FF, H R 0 40, P R 0 40, H R 2 7F, H R 4 FF, P R 4 3F, H R 6 7F
do ok 13
# A status read changes nothing.
ticks P W 1 01, H R 0 C0, H R 0 C0, H R 1 01
do ok 4
# The first wrong answer is told, with the chip's byte.
ticks H R 0 40, P R 0 00
do wrong 2 40
ticks P W 1 48, H R 1 49
do wrong 2 48
ticks H R 1 01, H R 3 02
do wrong 1 00
ticks H W 3 AF, P R 3 00
do wrong 2 AF
ticks H W 0 90, H R 4 FF
do wrong 2 7F
ticks H W 0 98, H W 5 11, P R 4 FF
do wrong 3 7F
# Ticks as they are written.
t
do ok 0
ticks H R 0 40
do ok 1
ticks H R 0 00
do wrong 1 40
ticks 0 H R 4 FF, 0 P R 4 3F
do ok 2
ticks 6 H W 3 5A, 6 P R 2 FF
do ok 2
ticks 0 H W 0 98, 3 H W 5 11, 4 P R 4 7F, 6 H W 5 22, 8 P R 4 FF
do ok 5
t
| FFFFFFFFFE P R 0 40
| FFFFFFFFFF H R 0 40
do ok 2
# Register 1 to the host takes twenty-four bytes: a twenty-fifth changes nothing.
t
do fills 00 01 01, 02 02 03, 04 03 05, 06 04 07, 08 05 09, 0A 06 0B, 0C 07 0D, 0E 08 0F, 10 09 11, 12 0A 13, 14 0B 15, 16 0C 17, 18 0D 19, 1A 0E 1B
do fills 1C 0F 1D, 1E 10 1F, 20 11 21, 22 12 23, 24 13 25, 26 14 27, 28 15 29, 2A 16 2B, 2C 17 2D
do entries 02E P W 1 18, 02F P R 0 00, 030 P W 1 19
do takes 31 01, 32 02, 33 03, 34 04, 35 05, 36 06, 37 07, 38 08, 39 09, 3A 0A, 3B 0B, 3C 0C, 3D 0D, 3E 0E, 3F 0F, 40 10, 41 11, 42 12, 43 13, 44 14
do takes 45 15, 46 16, 47 17, 48 18, 49 18
do ok 74
# A text that is no trace is told with its line and kind.
t
+ 0000000000 H R 0 4
do bad 1 kind 1
ticks 6 P R 2 FF, 6 H W 3 5A
do bad 2 kind 2
ticks 0 H R 0 40, 0 H R 8 40
do bad 2 kind 1
t
| 0000000000 H R 0 00
| x
do bad 2 kind 1
# A trace of 100,663,296 bytes is read, and one byte more is too long.
t
* 4194304 | xxxxxxxxxxxxxxxxxxxxxxx
do bad 1 kind 1
t
* 4194304 | xxxxxxxxxxxxxxxxxxxxxxx
+ x
$ check t
= 2 too long t
";

#[test]
fn the_chip_answers_as_the_application_note_says(rt: HostRuntime) -> Result<(), Fail> {
    all_hold(&rt, rt.alloc(), SCENES)
}
