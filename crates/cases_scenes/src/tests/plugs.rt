//! Devices that are plugged into the 1 MHz bus.
use super::scene::all_hold;
use std::test::Fail;

const SCENES: &str = "\
# The RAM card's page register, a byte of its page, and a byte to the printer.
do os
| LDA #5
| STA &FCFF
| LDA #&77
| STA &FD00
| LDA #&41
| STA &FC10
| LDA &FD00
| STA &70
| LDA &FCFF
| STA &71
| LDA &FC10
| STA &72
| LDA &FC20
| STA &73
do here
tube loop
t
$ solo 1000 o --plugs 2 %
= 0
at o.host 0070 77 05 01 FF
size o.plug0 65536
at o.plug0 04FF 00 77 00
file o.plug1
x 41
none o.plug2
keep
run 1000 o --plugs 8 %
= 0
same o.report o.host o.para o.trace o.plug0 o.plug1
$ replay host t 1000 o --os os --plugs 2
= 0
same o.host o.plug0 o.plug1
$ replay host t 1000 o --os os --plugs 1
= 0
at o.host 0070 77 05 FF FF
same o.plug0
none o.plug1
$ replay host t 1000 o --os os --plugs 0
= 0
at o.host 0070 FF FF FF FF
none o.plug0
$ solo 1000 o %
= 0
at o.host 0070 FF FF FF FF
none o.plug0
$ solo 0 o % --plugs 2
= 0
size o.plug0 65536
size o.plug1 0
# They are written last.
os loop
tube loop
fails - 4
$ solo 7 o % --plugs 2
= 5 cannot write o.plug0
size o.trace 0
none o.plug1
fails - 5
$ solo 7 o % --plugs 2
= 5 cannot write o.plug1
size o.plug0 65536
none o.plug1
# Each access of the host is one call, however long the bus stretches it, and of two devices that own an address the first alone is called.
plugs counter counter latch
do os
| LDA &FC00
| STA &70
| LDA &FDFF
| STA &71
| STA &FC80
| INC &FC00
| LDA &FC10
| STA &72
do here
tube loop
$ solo 1000 o % --plugs 3
= 0
at o.host 0070 00 01 06
file o.plug0
x 07
file o.plug1
x 00
size o.plug2 0
keep
run 1000 o % --plugs 3
= 0
same o.host o.plug0 o.plug1
# A device of whose bytes there is no memory for: what comes before them is written.
plugs counter mute counter
os loop
tube loop
$ solo 7 o % --plugs 3
= 7 no memory
file o.plug0
x 00
none o.plug1 o.plug2
$ solo 7 o % --plugs 1
= 0
file o.plug0
x 00
";

#[test]
fn plugged_devices_keep_what_is_written(rt: HostRuntime) -> Result<(), Fail> {
    all_hold(&rt, rt.alloc(), SCENES)
}
