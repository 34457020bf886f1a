//! BREAK, by a line of the key script: the host's reset operation at the Tube, and what it resets.
use super::scene::all_hold;
use std::test::Fail;

const SCENES: &str = "\
part halted
do os
| byte &02
do start C000
tube loop
end
part breaks
keys
| at {1} break
$ solo {2} o % --keys keys
= 0
file o.trace
| 00000000{3} H X 0 00
end
part unknown
ticks {}
do bad 1 kind 1
end
# A halted host comes back: the first break step is at the last tick of a cycle of its, from the tick of the break on. Both machines are reset.
do halted
keys
| at 60 break
t
$ solo 100 o % --keys keys
= 0
file o.report
| ticks 100
| host PC=C000 A=00 X=00 Y=00 S=FA P=24 halted
| para PC=F800 A=00 X=00 Y=00 S=FA P=24
| tube 1
| kept 1
| frames 0
file o.trace
| 000000003E H X 0 00
do same 100 o % --keys keys
take o.trace
do ok 1
$ replay host t 100 o --os os --keys keys
= 0
line o.report host PC=C000 A=00 X=00 Y=00 S=FA P=24 halted
$ replay para t 100 o --tube tube
= 0
line o.report para PC=F800 A=00 X=00 Y=00 S=FA P=24
$ replay host t 100 o --os os
= 8: differs 1 -
t
$ replay host t 100 o --os os --keys keys
= 8: differs 1 000000003E H X 0 00
# The reset operation in a trace: it clears the flags. It is the host's, with register 0 and byte 00.
ticks 0 H W 0 9F, 3 H R 0 5F, 6 H X 0 00, 9 H R 0 40
do ok 4
do unknown P X 0 00, H X 1 00, H X 0 01
# At 4 MHz the same is at twice the tick.
do halted
keys
| at 120 break
$ solo 200 o % --keys keys --speed 4
= 0
file o.trace
| T2
| 000000007D H X 0 00
# The last tick of a halted cycle, one tick before it and one behind.
do halted
do breaks 62 100 3E, 61 100 3E, 63 100 41
## The run ends before the step, and behind it.
$ solo 65 o % --keys keys
= 0
file o.trace
$ solo 66 o % --keys keys
= 0
file o.trace
| 0000000041 H X 0 00
# The look before the halting opcode, the cycle that reads it, and the one after: that cycle has neither a look nor a break step.
do halted
do breaks 0 40 14, 20 40 14, 21 40 1A, 23 40 1A, 27 40 1D
# A processor that goes on has the step in place of its next look: at the look's tick, one before it, and one behind. An access has none.
os loop
tube loop
do breaks 29 50 1D, 28 50 1D, 30 50 26
## Those that are pending are one step; a later one is one of its own, at the look of the reset's sequence.
keys
| at 30 break
| at 30 break
| at 35 break
| at 38 break
| at 39 break
$ solo 100 o % --keys keys
= 0
file o.trace
do entries 026 H X 0 00, 03B H X 0 00
line o.report host PC=C000 A=00 X=00 Y=00 S=F7 P=24
keep
run 100 o % --keys keys
= 0
same o.report o.trace
# A break within a stretched access waits for the look behind it. A shot at its tick is taken as ever.
do os
| LDA &FE40
do here
tube loop
keys
| at 31 shot
| at 31 break
$ solo 60 o % --keys keys
= 0
file o.trace
| 0000000023 H X 0 00
line o.report frames 1
# BREAK in the midst of a transfer: both programs begin again, and what was on its way is gone.
os letters
tube letters
keys
| at 930 break
$ solo 4000 o % --keys keys
= 0
line o.report host PC=C011 A=49 X=02 Y=00 S=FA P=27
line o.report para PC=F815 A=49 X=FF Y=00 S=FA P=24
at o.host 0070 48 49
trace
$ replay host t 4000 o --os os --keys keys
= 0
same o.host
$ replay para t 4000 o --tube tube
= 0
same o.para
run 4000 o % --keys keys
= 0
same o.report o.host o.para o.trace
# BREAK puts the user's 6522 and the disc latch in their power-on state, and leaves the system's 6522 and the memory.
do os
| LDA &70
| BNE again
| LDA #&FF
| STA &FE62
| STA &FE42
| INC &70
| here: JMP here
| again: LDA &FE62
| STA &71
| LDA &FE42
| STA &72
| there: JMP there
do start C000
tube loop
keys
| at 600 break
$ solo 1200 o % --keys keys
= 0
at o.host 0070 01 00 FF
";

#[test]
fn break_resets_both_machines_and_leaves_the_rest(rt: HostRuntime) -> Result<(), Fail> {
    all_hold(&rt, rt.alloc(), SCENES)
}
