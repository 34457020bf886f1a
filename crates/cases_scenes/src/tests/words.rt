//! Words in and outside the grammar.
use super::scene::all_hold;
use cmd_words::{options_are_order_free, options_stand_anywhere};
use std::test::Fail;

const SCENES: &str = "\
part asks
$ {}
= 2 cannot read n
end
part para-not
! replay para n 7 o --tube rom {}
end
part host-not
! replay host n 7 o --os rom {}
end
part solo-not
! solo 7 o --os n --tube n {}
end
part resume-not
! resume n 7 o {}
end
part follow-not
! follow host n 7 o --os rom {}
end
part dis-not
! dis 6502 in {}
end
# Words outside the grammar.
t
!
! ''
! check
! check ''
! check -t
! check -
! check --help
! check t t
! check -- t
! --help
! -h
! help
! Check t
! check=t
! run 7 demo
! asm
! asm 6502
! asm 6502 in
! asm 6502 in out more
! asm 65C02 in out
! asm 6510 in out
! asm 6502 '' out
! asm 6502 in -out
! dis
do dis-not C000, out C000, c000 out, C00 out, 0C000 out, C00G out, C00/ out, C00: out, C00@ out
! dis 6502 -in C000 out
do dis-not C000 ''
# Words of a replay of the second processor: good ones ask for the file n, which is absent.
do asks replay para n 1073741824 o --tube rom, replay --tube rom para n 0 o, replay para n --tube rom 7 o
! replay para n 1073741825 o --tube rom
! replay para n 99999999999999999999 o --tube rom
! replay para n 07 o --tube rom
! replay para n +7 o --tube rom
! replay para n 7a o --tube rom
! replay para n '' o --tube rom
! replay para n 7 o
! replay para n 7 o --tube
! replay para n 7 o --tube ''
! replay para n 7 o --tube -rom
! replay para n 7 o --tube=rom
do para-not --tube rom, --os os, --keep 7
! replay para n 7 --tube rom
! replay para n 7 o more --tube rom
! replay host n 7 o --tube rom
! replay para '' 7 o --tube rom
! replay para n 7 '' --tube rom
# Words of a replay of the host.
do asks replay host n 7 o --os rom, replay host n 7 o --os rom --rom0 rom --rom15 rom, replay host n 7 o --os rom --rom10 n --rom1 n
do host-not --os rom, --rom3 a --rom3 b, --rom16 rom, --rom01 rom, --rom rom, --rom0, --rom0 '', --tube rom
do asks replay host n 7 o --os rom --disc1 rom --disc0 rom.dsd, replay host n 7 o --os rom --font rom --plugs 0, replay host n 7 o --plugs 8 --os rom
do host-not --font rom --font rom, --font '', --plugs 9, --plugs 00, --plugs, --plugs 1 --plugs 1
do para-not --font rom, --plugs 0
do host-not --disc rom, --disc2 rom, --disc0 rom --disc0 rom
do para-not --disc0 rom
do host-not --keep 1, more
# Words of a run of both machines.
do asks solo 1073741824 o --os n --tube tube
! solo 1073741825 o --os n --tube tube
! solo 07 o --os n --tube tube
! solo 7 '' --os n --tube tube
! solo 7 --os n --tube tube
! solo 7 o more --os n --tube tube
! solo 7 o --tube tube
! solo 7 o --os n
do asks solo 7 o --os n --tube n --keep 0, solo --keep 4194304 7 --tube n o --os n
do solo-not --keep 4194305, --keep 03, --keep 3 --keep 3
do asks solo 7 o --os n --tube n --rom15 os, solo 7 o --os n --tube n --disc1 os, solo 7 o --os n --tube n --plugs 0 --font os
do solo-not --plugs -1
# Words of a session that goes on.
do asks resume n 1073741824 o, resume n 0 --keep 0 o --wav w --save s, resume --save s n --keep 4194304 7 o
! resume n 1073741825 o
! resume n 07 o
! resume '' 7 o
! resume -n 7 o
! resume n 7 ''
! resume n 7
do resume-not more, --keep 4194305, --save, --save '', --save -s, --save a --save b, --os os, --tube tube, --plugs 1, --speed 3, --at C000
do asks solo 7 o --os n --tube n --save s
do solo-not --save '', --save s --save s
! replay host t 7 o --os n --save s
! gen 1 --save s
# Words of a listing of instructions.
do asks follow host n 7 o --os rom --at C000 --watch 0070, follow para n 7 o --watch FFFF --tube rom --speed 4, follow host n 7 o --plugs 8 --os rom --font rom --disc0 d --keys k --rom15 r
! follow host n 7 o
! follow para n 7 o --os rom
! follow both n 7 o --os rom
! follow host n 7 --os rom
! follow host n 7 o more --os rom
do follow-not --wav w, --save s, --keep 7, --at c000, --at C00, --at 0C000, --at, --at C000 --at C000, --points, --points p --points p, --points p --at C000, --points -p, --counts --counts, --watch 70
do host-not --at C000
do solo-not --watch 0070
# Words of the demonstration.
! gen
! gen ''
! gen 01
! gen +1
! gen 1 2
! gen 1 --plugs 0
! gen 18446744073709551616
# Words of a run in two threads, which this call does not take.
! run 2000 o %
! run 7 o --keep 3 --rom0 os %
";

#[test]
fn words_outside_the_grammar_are_usage(rt: HostRuntime) -> Result<(), Fail> {
    options_are_order_free();
    options_stand_anywhere();
    all_hold(&rt, rt.alloc(), SCENES)
}
