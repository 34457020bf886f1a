//! Both machines at the Tube, on one thread.
use super::scene::all_hold;
use std::test::Fail;

const SCENES: &str = "\
part polls
| 0000000{} H R 0 40
end
part both
$ solo {1} o %
= 0
file o.report
| ticks {1}
| host {3} {4} {5} {6} {7} {8}
| para {9+}
| tube {2}
| kept {2}
| frames 0
end
# Two letters: the host looks 43 times in vain before the first of them.
os letters
tube letters
each 49, 4194304
$ solo --keep {} 2000 --tube tube o --os os
= 0
file o.report
do letters 49
file o.trace
do polls 024, 039, 04E, 063, 078, 08D, 0A2, 0B7, 0CC, 0E1, 0F6, 10B, 120, 135, 14A, 15F, 174, 189, 19E, 1B3, 1C8, 1DD, 1F2, 207, 21C, 231, 246, 25B
do polls 270, 285, 29A, 2AF, 2C4, 2D9, 2EE, 303, 318, 32D, 342, 357, 36C, 381, 396
do entries 39A P W 1 48, 3A6 P W 1 49, 3AB H R 0 C0, 3BD H R 1 48, 3EA H R 0 C0, 3FC H R 1 49
at o.host 0070 48 49 00
size o.host 32768
size o.para 65536
end
$ solo --keep 3 2000 --tube tube o --os os
= 0
file o.report
do letters 3
file o.trace
do polls 024, 039, 04E
at o.host 0070 48 49 00
$ solo 2000 o %
= 0
file o.report
do letters 49
trace
do host 2000 47 PC=C011 A=49 X=02 Y=00 S=FD P=27
same o.host
do para 2000 2 PC=F815 A=49 X=FF Y=00 S=FD P=24
same o.para
# Nothing is done in no ticks.
os letters
tube loop
do both 0 0 PC=0000 A=00 X=00 Y=00 S=00 P=20 PC=0000 A=00 X=00 Y=00 S=00 P=20
at o.host 0000 00
at o.host 0070 00
size o.host 32768
size o.para 65536
size o.trace 0
trace
do host 0 0 PC=0000 A=00 X=00 Y=00 S=00 P=20
same o.host
do para 0 0 PC=0000 A=00 X=00 Y=00 S=00 P=20
same o.para
# A return address on the stack.
do os
| JSR &C100
do start C000
tube loop
do both 31 0 PC=C000 A=00 X=00 Y=00 S=FD P=24 PC=F800 A=00 X=00 Y=00 S=FD P=24
at o.host 01FC 00 C0
size o.trace 0
trace
do host 31 0 PC=C000 A=00 X=00 Y=00 S=FD P=24
same o.host
do para 31 0 PC=F800 A=00 X=00 Y=00 S=FD P=24
same o.para
# A byte of the Tube, read, written back and written.
do os
| INC &FEE1
do start C000
tube loop
do both 40 3 PC=C003 A=00 X=00 Y=00 S=FD P=24 PC=F800 A=00 X=00 Y=00 S=FD P=24
at o.host 0000 00
at o.host 01FD 00
file o.trace
do entries 01E H R 1 00, 021 H W 1 00, 024 H W 1 01
trace
do host 40 3 PC=C003 A=00 X=00 Y=00 S=FD P=24
same o.host
do para 40 0 PC=F800 A=00 X=00 Y=00 S=FD P=24
same o.para
";

#[test]
fn both_machines_on_one_thread_are_checked_and_replayed(rt: HostRuntime) -> Result<(), Fail> {
    all_hold(&rt, rt.alloc(), SCENES)
}
