//! Replays of one machine against a trace.
use super::scene::all_hold;
use std::test::Fail;

const SCENES: &str = "\
part para-unlike
$ replay --tube tube para t 2000 o
= {}
none o.report o.para
end
# Reset, held and let go.
tube loop
ticks 62 H W 0 A0, 65 H W 0 20
do para 200 0 PC=F800 A=00 X=00 Y=00 S=FA P=24
size o.para 65536
# Reset, held.
tube loop
ticks 62 H W 0 A0
do para 200 0 PC=F800 A=00 X=00 Y=00 S=FD P=24 held
size o.para 65536
# The Tube's status as code.
do status-code
ticks 14 P R 0 40, 16 P R 1 00
do para 32 2 PC=0000 A=00 X=00 Y=00 S=00 P=20
size o.para 65536
# The whole trace is checked, and entries from the last tick on are not replayed.
tube loop
ticks 0 H R 0 40, 14 P R 0 40
do para 0 0 PC=0000 A=00 X=00 Y=00 S=00 P=20
size o.para 65536
# Two letters to register 1.
tube letters
ticks 39A P W 1 48, 3A6 P W 1 49
do para 2000 2 PC=F815 A=49 X=FF Y=00 S=FD P=24
size o.para 65536
# No entry where the second processor writes or reads.
tube letters
t
do para-unlike 8: differs 1 000000039A P W 1 48
do status-code
t
do para-unlike 8: differs 1 0000000014 P R 0 --
do status-code
ticks 1 H R 0 40, 14 P R 0 40
do para-unlike 8: differs 3 0000000016 P R 1 --
# Another register and another tick.
do status-code
ticks 14 P R 2 7F
do para-unlike 8: differs 1 0000000014 P R 0 --
do status-code
ticks 13 P R 0 40
do para-unlike 8: differs 1 0000000014 P R 0 --
# An entry where it does nothing more.
tube loop
ticks 1 H R 0 40, 14 P R 0 40
do para-unlike 8: differs 2 -
# A trace that the chip would not give is told before it is replayed.
tube loop
ticks 14 P R 0 41
do para-unlike 8: wrong 1 40
# An opcode without an instruction.
do os
| byte 2
do start C000
t
do host 100 0 PC=C000 A=00 X=00 Y=00 S=FD P=24 halted
at o.host 0070 00
size o.host 32768
# A return address on the stack.
do os
| JSR &C100
do start C000
t
do host 31 0 PC=C000 A=00 X=00 Y=00 S=FD P=24
at o.host 01FD C0
size o.host 32768
# A byte of the Tube, read, written back and written.
do os
| INC &FEE1
do start C000
ticks 1E H R 1 00, 21 H W 1 00, 24 H W 1 01
do host 40 3 PC=C003 A=00 X=00 Y=00 S=FD P=24
at o.host 01FD 00
size o.host 32768
# Nothing is done in no ticks.
os letters
t
do host 0 0 PC=0000 A=00 X=00 Y=00 S=00 P=20
at o.host 0070 00
size o.host 32768
# A paged ROM is in the slot of its option: the first byte of that of slot 15, to 0070.
do os
| LDA #15
| STA &FE30
| LDA &8000
| STA &70
| stop: JMP stop
do start C000
t
$ replay --rom15 os host --os os t 200 o
= 0
at o.host 0070 A9
$ replay --rom14 os host --os os t 200 o
= 0
at o.host 0070 FF
# Where the host differs.
os letters
ticks 1 P R 0 00
do unlike 8: wrong 1 40
os letters
t
do unlike 8: differs 1 0000000024 H R 0 --
top replay host t 100 o --os os
= 8: differs 1 0000000024 H R 0 --
none o.report o.host
do os
| INC &FEE1
do start C000
ticks H R 0 40
do unlike 8: differs 1 000000001E H R 1 --
do os
| byte 2
do start C000
ticks H R 0 40
do unlike 8: differs 1 -
";

#[test]
fn one_machine_is_replayed_against_a_trace(rt: HostRuntime) -> Result<(), Fail> {
    all_hold(&rt, rt.alloc(), SCENES)
}
