//! The programs. The first word is the discs in the drives: `none`; `empty`, an SSD without bytes
//! in drive 0; `ssd`, a whole one in drive 0; `both`, a whole SSD in drive 0 and a whole DSD in
//! drive 1. Byte i of sector n of an image is n + i.
//!
//! `L=29` writes the latch, `3=05` writes 05 to register 3, `0?83` reads 83 from register 0, and
//! `+64` does 64 steps (decimal). `drq`, `no-drq`, `int` and `no-int` give DRQ and INTRQ, and `n2`
//! says that the NMI line rose twice. `d0:5A@512` says that byte 512 of the image in drive 0 is 5A,
//! and `d0#768` that the image is 768 bytes long. `r01` reads 256 bytes that rise from 01, and
//! `w56` writes 255 that rise from 56, a byte each 64 steps. A program begins before step 0, so
//! `+1` does step 0, at angle 0.
pub(crate) const PROGRAMS: &str = "\
# Power-on, and the index.
none 0?06 1?00 2?00 3?00 n0 no-drq no-int +1 0?06 +3999 0?06 +1 0?04 +195999 0?04 +1 0?06
# Reset: the latch is 00 at power-on.
none 0=D8 no-int 0=00 0?06 +2 no-int 0?06 L=29 0=D8 int n1 0?A6
none 1=11 2=22 3=33 1?11 2?22 3?33
# Restore, at track 0 and from track 2.
none L=29 1=44 0=08 0?A7 no-int +1 int n1 0?A6 no-int 1?00
none L=29 3=02 0=10 +12000 0?A0 1?02 0=03 +59999 0?A1 1?02 +1 int 1?00 0?A4
none L=29 3=01 0=10 +6000 0=01 +11999 0?A1 +1 0?A4 3=01 0=10 +6000 0=0A +19999 0?A1 +1 0?A4
# Seek at each rate.
none L=29 3=03 0=10 0?A7 +17999 0?A5 1?00 no-int +1 int n1 1?03 0?A0 no-int
none L=29 3=01 0=11 +11999 0?A5 +1 0?A0
none L=29 3=01 0=12 +19999 0?A5 +1 0?A0
none L=29 3=01 0=13 +29999 0?A5 +1 0?A0
none L=29 1=07 3=07 0=13 +1 int 1?07 0?A6
# The heads stay at tracks 0 to 83.
none L=29 3=FF 0=10 +1529999 0?A5 +1 1?FF 0?A0 3=AC 0=14 +497999 0?A1 +1 1?AC 0?B4
none L=29 1=0A 3=00 0=10 +59999 0?A5 +1 1?00 0?A4
# Step in the last direction, inward at first, and after a step outward; a restore of no step leaves it.
none L=29 0=20 +6000 1?00 0?A0 0=60 +6000 0?A4 0=00 +1 0?A4 0=20 +6000 0?A4 0=30 +6000 1?FF 0?A4
none L=29 3=03 0=10 +18000 3=02 0=10 +6000 0=30 +6000 1?01 0?A0 0=30 +6000 1?00 0?A4
# Step in and step out, with and without the track register.
none L=29 0=50 +6000 1?01 0?A0 0=40 +6000 1?01 0=70 +6000 1?00 0?A0 0=60 +6000 1?00 0?A4 0=70 +6000 1?FF 0?A4 0=50 +6000 1?00 0?A0
none L=29 0=43 +29999 0?A5 +1 0?A0 0=62 +19999 0?A1 +1 0?A4 0=21 +11999 0?A5 +1 0?A4
none L=29 0=51 +11999 0?A5 +1 1?01 0?A0 0=72 +19999 0?A1 +1 1?00 0?A4 0=33 +29999 0?A5 +1 1?FF 0?A4
# Verification.
none L=29 3=05 1=03 0=14 +12000 1?05 0?B0 0=44 0?A1
none L=29 3=05 0=14 +30000 1?05 0?A0
none L=29 0=44 +5999 0?A5 +1 0?B0 0=64 +6000 0?A4 0=54 +6000 0?A0
none L=29 1=44 0=04 +1 0?A6
# A command works with the data register, the drive and the direction of its writing, and with the track register of its end.
none L=29 3=02 0=10 +100 1=55 3=77 +11900 1?02 3?77 0?A0
none L=29 0=50 +100 1=55 +5900 1?56
none L=29 3=02 0=10 +100 L=2A +11900 0?A4 L=29 0?A0
none L=2B 0=50 +6000 0?A0 L=2A 0?A4 L=28 0?A0
none L=28 0=50 +6000 0?A0 L=2A 0?A4 L=29 0?A0
none L=2A 0=50 +6000 0?A0 L=29 0?A4 L=28 0?A4
# A command that is ended early changes neither head nor track register nor direction.
none L=29 3=02 0=10 +11999 0=D0 0?A4 1?00 no-int +1 no-int n0 1?00 0?A4
none L=29 0=60 +10 0=D0 0=20 +6000 0?A0
none L=29 3=02 0=10 +100 L=09 0?A6 no-int 1?00 0=00 0?A6 0=D8 no-int +1999999 0?A6 +1 0?06 n0
# Commands but Dx are ignored while busy.
none L=29 0=80 +10 0=00 0?81 0=E0 0=C0 +1 0?81
# Read track and write track.
none L=29 0=E0 0?81 +1 int n1 0?90 no-int n1
none L=29 0=F0 0?81 +1 int n1 L=09 no-int 0?90 n1
# Writing a command clears INTRQ.
none L=29 0=E0 +1 int 0=00 no-int n1 0?A7 +1 int n2
# Dx, idle and busy.
none L=29 0=E0 +1 0?90 0=D0 0?A6 no-int n1
none L=29 0=80 +10 0?81 0=D0 0?80 no-int 0=D0 0?A6 n0
none L=29 0=80 +10 0=D8 int n1 0?80 no-int 0=DF int n2 0=D7 no-int n2 0?A6
ssd +1 L=29 2=01 0=80 +22016 0?87 n1 0=D8 no-drq int n1 0?80 no-int
ssd +1 L=29 2=01 0=80 +22016 0?87 0=D0 no-drq no-int n1 0?80
ssd L=29 0=84 +10 0=D8 int 0?80 +40000 no-drq no-int 0?80
ssd L=29 0=A0 +769 drq 0=D0 no-drq no-int 0?80 3=55 +1200 0?80 d0:00@0
ssd L=29 2=44 0=C0 +449 drq 0=D0 no-drq no-int 0?80 +1000 2?44
none L=29 0=E0 0=D8 int n1 0?80 +1 no-int 0?80 n1
# A reset leaves the registers, lost data and the kind of the status.
ssd +1 L=29 2=01 0=80 +22016 0?87 L=09 no-drq no-int 0?84 1?00 2?01 3?02 n1
ssd L=29 0=80 +1985 drq n1 L=09 no-drq no-int 0?80 L=29 0?80 +20000 no-drq n1
ssd L=21 0=80 +10 L=01 no-int 0?80 L=29 +1000000 no-int 0?80 n0
ssd L=29 0=A4 +10 L=00 0?80 L=29 +40000 no-drq 0?80
ssd L=29 2=44 0=C0 +449 drq L=09 no-drq 0?80 +1000 2?44 no-int
none L=29 0=E0 L=09 0?80 +1 no-int 0?80 n0
# The motor goes off 2,000,000 steps after the end of a command.
none L=29 0=D8 0?A6 +1999999 0?A4 +1 0?04
none L=29 0=00 +2000000 0?A4 +1 0?06
none L=29 0=E0 +2000000 0?90 +1 0?10
none L=29 0=D0 +1000000 L=09 +999999 0?A4 +1 0?04
none L=29 0=D0 +1000000 0=D0 +1999999 0?A4 +1 0?04
# A read whose bytes are not taken.
ssd +1 L=29 1=00 2=01 0=80 +21951 0?81 no-drq +1 0?83 drq n1 +63 0?83 +1 0?87 +16383 0?87 no-int +1 int 0?86 no-int n1 drq 3?00 no-drq 0?84 n1
# A read whose bytes are.
ssd +1 L=29 2=01 0=80 +21952 drq r01 0?81 no-drq +63 0?81 no-int +1 int 0?80 n257 2?01
# A sector is found at the first step of the search, or a turn later.
ssd L=29 0=80 +1984 no-drq +1 drq 3?00
ssd +1 L=29 0=80 +201983 no-drq +1 drq 3?00
# With bit 2 the search begins 30,000 steps later.
ssd +1 L=29 2=01 0=84 +221951 no-drq +1 drq 3?01
ssd +9936 L=29 2=02 0=8C +31984 no-drq +1 drq 3?02
ssd +9937 L=29 2=02 0=84 +31984 no-drq +199999 no-drq +1 drq 3?02
# The head, side and drive are those of the writing.
ssd L=29 3=02 0=10 +12000 2=01 0=80 +9952 no-drq +1 drq 3?15
both L=2E 0=80 +1984 no-drq +1 drq 3?0A
both L=2E 0=80 L=29 +1985 drq 3?0A
both L=29 0=80 L=2E +1985 drq 3?00
both L=2B 2=01 0=80 +21953 drq 3?01
# Track and sector registers changed during a search, and once the sector is found.
ssd L=29 1=01 0=80 +100 1=00 2=01 +21852 no-drq +1 drq 3?01
ssd L=29 0=80 +1 1=55 2=66 L=21 +1983 no-drq +1 drq 3?00 1?55 2?66
ssd L=29 0=80 1=01 +1000000 0?81 +1 0?90
# Each cause of record not found: no disc, none in this drive, no drive, double density, another track, track 80, sector 10, side 1.
none L=29 0=80 +1000000 0?81 no-int +1 int n1 0?90
none +1 L=29 0=80 +1000000 0?81 +1 0?90
ssd L=2A 0=90 +1000000 0?81 +1 0?90
ssd L=28 0=80 +1000000 0?81 +1 0?90
ssd L=21 0=A0 +1000000 0?81 +1 0?90
ssd L=29 1=01 0=80 +1000000 0?81 +1 0?90 1?01
ssd L=29 3=50 0=10 +480000 0=80 +1000000 0?81 +1 0?90
ssd L=29 2=0A 0=B0 +1000000 0?81 +1 0?90 2?0A
ssd L=2D 0=A0 +1000000 0?81 +1 0?90
none L=29 0=84 +1030000 0?81 +1 0?90
# A sector is still found in the very last step.
ssd L=21 0=80 +1000000 L=29 +1 0?81 +1983 no-drq +1 drq 3?00
ssd L=29 3=4F 0=10 +474000 2=09 0=80 +107696 no-drq +1 drq 3?1F
# Several sectors, until one is not found.
ssd +1 L=29 2=08 0=90 +161728 drq r08 2?08 +64 2?09 0?81 +3520 drq r09 +64 2?0A 0?81 +1000000 0?81 +1 int 0?90 n513
ssd L=29 0=90 +1 2=FF +18431 2?FF +1 2?00 no-int 0?87
# A write whose first byte does not come.
ssd L=29 0=A0 +768 no-drq 0?81 +1 drq n1 0?83 +639 0?83 no-int +1 int 0?86 n1 d0:00@0 d0:01@1 d0#204800
ssd L=29 0=B0 +1409 int 0?86 2?00
# A write whose bytes come.
ssd L=29 0=A0 +769 drq 3=55 no-drq +1151 no-drq d0:00@0 +1 drq d0:55@0 w56 no-drq d0:54@255 d0:01@256 +191 0?81 no-int +1 int 0?80 n257
ssd +1 L=29 2=08 0=B0 +160512 drq 3=AA +1152 d0:AA@2048 wAB d0:A9@2303 +191 2?08 +1 2?09 0?81 no-int +2303 no-drq +1 drq
# A byte that comes late: 00 is written in its place.
ssd L=29 0=A0 +769 3=55 +1152 0?83 d0:55@0 +63 d0:01@1 +1 0?87 d0:00@1 3=66 +64 0?87 d0:66@2 d0:03@3
# The last byte late: 00 with lost data, and DRQ stays.
ssd L=29 0=A0 +769 3=01 +1152 3=02 +16319 d0:FF@255 +1 0?87 drq d0:02@1 d0:00@254 d0:00@255 +191 no-int +1 int 0?86 drq n3
# An image grows at the first byte of a sector, also where the write is broken off.
empty L=29 2=02 0=A0 +40705 3=5A +1151 d0#0 +1 d0#768 d0:5A@512 d0:00@767 0=D0 d0#768
empty L=29 2=02 0=A0 +41345 int 0?86 d0#0
empty L=29 2=02 0=80 +41985 drq 3?00 d0#0
# A write on side 1 of drive 1, a read of it back, and a read of side 0, which is as before.
both L=2E 0=A0 +769 3=77 +1152 d1:77@2560 d0:0A@2560 w78 +192 int 0=80 +183551 no-drq +1 drq r77 +64 int L=2A 0=80 +183551 no-drq +1 drq r00 +64 int 0?80
# Read address: the next sector, its six bytes, and the sector register at the end.
ssd +1 L=29 2=44 0=C0 +20415 no-drq +1 drq 3?00 +64 3?00 +64 3?01 +64 3?01 +64 3?00 +64 3?00 no-drq +127 2?44 0?81 +1 int 2?00 0?80 n7
both L=2E 3=02 0=10 +12000 0=C4 +8416 no-drq +1 drq 3?02 +64 3?01 +64 3?01 +64 3?01 +64 3?00 +64 3?00 +128 int 2?02 0?80
ssd +1 L=29 0=C0 +20416 0?83 +64 0?87 +383 0?87 no-int +1 int 0?86 n1
ssd L=29 0=C0 +448 no-drq +1 drq
ssd +179713 L=29 0=C0 +20735 no-drq +1 drq 3?00
ssd L=29 1=55 2=66 0=C0 +1 L=21 1=77 +448 drq 3?00 +448 2?00 1?77
# Read address without a sector.
none L=29 2=33 0=C0 +999999 0?81 no-int +1 int n1 0?90 2?33
ssd L=29 3=50 0=10 +480000 0=C0 +999999 0?81 +1 0?90
ssd L=2D 0=C0 +999999 0?81 +1 0?90
ssd L=28 0=C0 +999999 0?81 +1 0?90
ssd L=21 0=C0 +999999 0?81 +1 0?90
ssd +1 L=21 0=C0 +999999 L=29 +1 0?81 +447 no-drq +1 drq 3?00
";
