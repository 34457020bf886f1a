//! The cycles of the host's accesses: the first and the last address of each area, from an even and
//! from an odd cycle.
use super::scene::all_hold;
use std::test::Fail;

const SCENES: &str = "\
part fast
| {2} &{1}
| LDA &FEE0
| LDA &70
| {2} &{1}
| LDA &FEE0
| LDA &70
end
part last
| {2} &{1}
| LDA &FEE0
| LDA &70
| {2} &{1}
| LDA &FEE0
end
part slow
| {2} &{1}
| LDA &FEE0
| {2} &{1}
| LDA &FEE0
| LDA &70
end
part polls
| 0000000{} H R 0 40
end
each LDA read, STA written
# The first and the last address of each area, {2} from an even and from an odd host cycle, each with a Tube access behind it.
do os
do fast 0000 {1}, 7FFF {1}, 8000 {1}, BFFF {1}, C000 {1}, FBFF {1}
do slow FC00 {1}, FDFF {1}, FE00 {1}, FE07 {1}, FE08 {1}, FE0F {1}, FE10 {1}, FE1F {1}
do fast FE20 {1}, FE2F {1}, FE30 {1}, FE3F {1}
do slow FE40 {1}, FE5F {1}, FE60 {1}, FE7F {1}
do fast FE80 {1}, FE83 {1}, FE84 {1}, FE87 {1}, FE88 {1}, FEBF {1}
do slow FEC0 {1}, FEDF {1}
do fast FF00 {1}
do last FFFF {1}
do here
t
do polls 02A, 04B, 06C, 08D, 0AE, 0CF, 0F0, 111, 132, 153, 174, 195, 1B9, 1D7, 1FB, 219, 23D, 25B, 27F, 29D, 2C1, 2DF, 303, 321, 345, 363, 387, 3A5
do polls 3C6, 3E7, 408, 429, 44A, 46B, 48C, 4AD, 4D1, 4EF, 513, 531, 555, 573, 597, 5B5, 5D6, 5F7, 618, 639, 65A, 67B, 69C, 6BD, 6DE, 6FF, 720, 741
do polls 765, 783, 7A7, 7C5, 7E6, 807, 828, 849
$ replay host t 2124 o --os os
= 0
line o.report tube 64
end
";

#[test]
fn an_access_takes_the_cycles_of_its_area(rt: HostRuntime) -> Result<(), Fail> {
    all_hold(&rt, rt.alloc(), SCENES)
}
