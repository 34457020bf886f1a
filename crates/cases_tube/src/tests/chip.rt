//! The chip by its calls.
use beeb_bits::Side;
use tube_chip::{Answer, Chip, Lines, Op, packing_is_one_to_one, rising_list_is_merge};

#[test]
fn register_1_takes_twenty_four_bytes(rt: HostRuntime) {
    let mut chip = Chip::new();
    for byte in 0x01..=0x17u8 {
        assert_eq!(rt; chip.apply(Side::Para, Op::Write(1, byte)), 0);
    }
    assert_eq!(rt; chip.apply(Side::Para, Op::Read(0)), 0x40);
    chip.apply(Side::Para, Op::Write(1, 0x18));
    assert_eq!(rt; chip.apply(Side::Para, Op::Read(0)), 0x00);
    chip.apply(Side::Para, Op::Write(1, 0x19));
    for byte in 0x01..=0x18u8 {
        assert_eq!(rt; chip.apply(Side::Host, Op::Read(1)), byte);
    }
    assert_eq!(rt; chip.apply(Side::Host, Op::Read(1)), 0x18);
}

#[test]
fn a_rise_of_the_nmi_condition_counts(rt: HostRuntime) {
    let mut chip = Chip::new();
    let rows = [
        (Side::Host, Op::Write(0, 0x98), 0x00, 0),
        (Side::Host, Op::Write(5, 0x11), 0x00, 0),
        (Side::Para, Op::Read(4), 0x7f, 0),
        (Side::Host, Op::Write(5, 0x22), 0x00, 1),
        (Side::Para, Op::Read(4), 0xff, 1),
    ];
    for (side, op, answer, nmis) in rows {
        let got = chip.apply(side, op);
        assert!(rt;
            (got, chip.lines().nmis) == (answer, nmis),
            "{side:?} {op:?}"
        );
    }
}

#[test]
fn the_counts_rise_with_their_conditions(rt: HostRuntime) {
    let mut chip = Chip::new();
    let rows = [
        // M is set. Register 3 to the host holds its byte of power-on, so N does not hold.
        (Side::Host, Op::Write(0, 0x88), 0, 0),
        // The host empties it: N.
        (Side::Host, Op::Read(5), 1, 0),
        (Side::Para, Op::Write(5, 0x66), 1, 0),
        (Side::Host, Op::Read(5), 2, 0),
        // N holds already, for one reason and then for the other.
        (Side::Host, Op::Write(5, 0x11), 2, 0),
        (Side::Para, Op::Write(5, 0x77), 2, 0),
        // The parasite takes its byte, and gets another.
        (Side::Para, Op::Read(5), 2, 0),
        (Side::Host, Op::Write(5, 0x22), 3, 0),
        // M off and on again over N.
        (Side::Host, Op::Write(0, 0x08), 3, 0),
        (Side::Host, Op::Write(0, 0x88), 4, 0),
        // Clearing ends N. With V one byte is too few.
        (Side::Host, Op::Write(0, 0xc0), 4, 0),
        (Side::Host, Op::Write(0, 0x90), 4, 0),
        (Side::Host, Op::Write(5, 0x11), 4, 0),
        (Side::Host, Op::Write(5, 0x22), 5, 0),
        // V off over two bytes leaves N as it is.
        (Side::Host, Op::Write(0, 0x10), 5, 0),
        // P, again with T while it is set, and after it was clear.
        (Side::Host, Op::Write(0, 0xa0), 5, 1),
        (Side::Host, Op::Write(0, 0xe0), 5, 1),
        (Side::Host, Op::Write(0, 0x20), 5, 1),
        (Side::Host, Op::Write(0, 0xe0), 5, 2),
        // Reads and the parasite's writes never reset.
        (Side::Para, Op::Write(0, 0xa0), 5, 2),
    ];
    for (side, op, nmis, resets) in rows {
        let _ = chip.apply(side, op);
        let lines = chip.lines();
        assert!(rt;
            (lines.nmis, lines.resets) == (nmis, resets),
            "after {side:?} {op:?}"
        );
    }
}

#[test]
fn each_line_follows_its_flag_and_register(rt: HostRuntime) {
    let idle = Lines {
        prst: false,
        resets: 0,
        nmis: 0,
        pirq: false,
        hirq: false,
    };
    let mut chip = Chip::new();
    assert_eq!(rt; chip.lines(), idle);
    let rows = [
        // Q, then a byte in register 4 to the host.
        (Side::Host, Op::Write(0, 0x81), idle),
        (Side::Para, Op::Write(7, 0x01), Lines { hirq: true, ..idle }),
        (Side::Host, Op::Read(7), idle),
        // A byte in register 1 to the parasite, then I.
        (Side::Host, Op::Write(1, 0x02), idle),
        (Side::Host, Op::Write(0, 0x82), Lines { pirq: true, ..idle }),
        (Side::Para, Op::Read(1), idle),
        // The same with register 4 and J.
        (Side::Host, Op::Write(7, 0x03), idle),
        (Side::Host, Op::Write(0, 0x84), Lines { pirq: true, ..idle }),
        (Side::Para, Op::Read(7), idle),
        // P, twice: only the first is a rise.
        (
            Side::Host,
            Op::Write(0, 0xa0),
            Lines {
                prst: true,
                resets: 1,
                ..idle
            },
        ),
        (
            Side::Host,
            Op::Write(0, 0xa0),
            Lines {
                prst: true,
                resets: 1,
                ..idle
            },
        ),
        (Side::Host, Op::Write(0, 0x20), Lines { resets: 1, ..idle }),
        // M where N holds: register 3 to the host has just been emptied.
        (Side::Host, Op::Read(5), Lines { resets: 1, ..idle }),
        (
            Side::Host,
            Op::Write(0, 0x88),
            Lines {
                resets: 1,
                nmis: 1,
                ..idle
            },
        ),
    ];
    for (side, op, lines) in rows {
        let _ = chip.apply(side, op);
        assert!(rt; chip.lines() == lines, "after {side:?} {op:?}");
        assert!(rt; Answer::Seen(chip.lines()) == Answer::Seen(lines));
    }
}

// Makes a chip with `queue` bytes in register 1 to the host, `third` bytes in register 3 in both
// directions unless it is 0, and these counts.
fn filled(queue: u8, third: u8, counts: u64) -> Option<Chip> {
    let mut chip = Chip::new();
    chip.apply(Side::Host, Op::Write(0, 0x90));
    chip.apply(Side::Host, Op::Read(5));
    for byte in 0..queue {
        chip.apply(Side::Para, Op::Write(1, 0xe0 | byte % 32));
    }
    for byte in 0..third {
        chip.apply(Side::Para, Op::Write(5, 0x70 | byte % 16));
        chip.apply(Side::Host, Op::Write(5, 0x90 | byte % 16));
    }
    let mut words = chip.pack();
    words[0] = counts;
    Chip::unpack(words)
}

#[test]
fn a_reset_breaks_a_transfer_off(rt: HostRuntime) {
    let mut chip = Chip::new();
    let rows = [
        // V M J I Q: the parasite's NMI rises as the host empties register 3.
        (Side::Host, Op::Write(0, 0x9f), 0x00, 0, 0),
        (Side::Host, Op::Read(5), 0x00, 1, 0),
        // Each has sent the first of two bytes in register 3.
        (Side::Host, Op::Write(5, 0x11), 0x00, 1, 0),
        (Side::Para, Op::Write(5, 0x22), 0x00, 1, 0),
        (Side::Para, Op::Write(1, 0x31), 0x00, 1, 0),
        (Side::Para, Op::Write(1, 0x32), 0x00, 1, 0),
        (Side::Host, Op::Write(7, 0x44), 0x00, 1, 0),
        (Side::Host, Op::Read(1), 0x31, 1, 0),
        // P is set, and the reset counts too.
        (Side::Host, Op::Write(0, 0xa0), 0x00, 1, 1),
        (Side::Host, Op::Reset, 0x00, 1, 2),
        (Side::Host, Op::Read(0), 0x40, 1, 2),
        (Side::Host, Op::Read(1), 0x00, 1, 2),
        (Side::Para, Op::Read(6), 0x7f, 1, 2),
        (Side::Para, Op::Read(7), 0x00, 1, 2),
        (Side::Para, Op::Read(4), 0x3f, 1, 2),
        // The byte 00 in register 3 to the host. After its read N holds, but M is clear.
        (Side::Host, Op::Read(4), 0xff, 1, 2),
        (Side::Host, Op::Read(5), 0x00, 1, 2),
        (Side::Host, Op::Read(4), 0x7f, 1, 2),
        (Side::Para, Op::Read(4), 0xff, 1, 2),
        // P is clear, so that it rises again; and two resets in a row count twice.
        (Side::Host, Op::Write(0, 0xa0), 0x00, 1, 3),
        (Side::Host, Op::Reset, 0x00, 1, 4),
        (Side::Host, Op::Reset, 0x00, 1, 5),
    ];
    for (side, op, answer, nmis, resets) in rows {
        let got = chip.apply(side, op);
        let lines = chip.lines();
        assert!(rt;
            (got, lines.nmis, lines.resets) == (answer, nmis, resets),
            "{side:?} {op:?}"
        );
    }
    let mut chip = filled(9, 2, 0xffff_ffff_0000_0007).expect(&rt, "counts of 32 bits");
    chip.apply(Side::Host, Op::Reset);
    assert_eq!(rt; chip.pack(), [7, 0, 0, 0, 0x10_0000, 0]);
}

// Returns true if a chip that was read back from the words of another continues as that one does.
fn goes_on_as(again: &mut Chip, chip: &mut Chip) -> bool {
    if again.pack() != chip.pack() || again.lines() != chip.lines() {
        return false;
    }
    for read in 0..200u8 {
        let op = Op::Read(read % 8);
        let host = again.apply(Side::Host, op) == chip.apply(Side::Host, op);
        let para = again.apply(Side::Para, op) == chip.apply(Side::Para, op);
        if !host || !para {
            return false;
        }
    }
    true
}

// Returns true if a chip of these contents and counts is read back, after a write of each byte to
// the status.
fn is_read_back(queue: u8, third: u8, counts: u64) -> Option<bool> {
    for byte in 0..=255u8 {
        let mut chip = filled(queue, third, counts)?;
        chip.apply(Side::Host, Op::Write(0, byte));
        let mut again = Chip::unpack(chip.pack())?;
        if !goes_on_as(&mut again, &mut chip) {
            return Some(false);
        }
    }
    Some(true)
}

#[test]
fn a_chip_is_read_back_from_its_words(rt: HostRuntime) {
    let rows = [
        (0, 0, 0),
        (1, 1, 0xffff_ffff_ffff_fffe),
        (23, 2, 0xffff_fffe_ffff_ffff),
        (24, 2, 0xffff_ffff_ffff_ffff),
    ];
    for (queue, third, counts) in rows {
        assert!(rt; is_read_back(queue, third, counts) == Some(true), "{queue}");
    }
}

#[test]
fn the_words_are_as_described(rt: HostRuntime) {
    assert_eq!(rt; Chip::new().pack(), [0, 0, 0, 0, 0x10_0000, 0]);
    let mut chip = filled(9, 2, 0x0000_0002_0000_0001).expect(&rt, "counts of 32 bits");
    chip.apply(Side::Host, Op::Write(7, 0x55));
    let counts = 0x0000_0002_0000_0001;
    let front = 0xe7e6_e5e4_e3e2_e1e0;
    let host = 0x71_70_00_20_09_10;
    let para = 0x55_91_90_00_00_60;
    assert_eq!(rt; chip.pack(), [counts, front, 0xe8, 0, host, para]);
    // Words 2, 4 and 5. In each row one differs from the chip's.
    let strangers = [
        // 25 bytes in register 1 to the host, or a byte after its ninth.
        (0xe8, 0x71_70_00_20_19_10, para),
        (0xe7e8, host, para),
        // A seventh flag, three bytes in register 3, two in register 2, a count for register 1, a
        // byte too many.
        (0xe8, 0x71_70_00_20_09_50, para),
        (0xe8, 0x71_70_00_30_09_10, para),
        (0xe8, 0x71_70_00_28_09_10, para),
        (0xe8, 0x71_70_00_21_09_10, para),
        (0xe8, 0x01_00_71_70_00_20_09_10, para),
        (0xe8, host, 0x01_55_91_90_00_00_60),
        // A byte remembered beside a list that is not empty: two places for the one byte of a
        // register.
        (0xe8, 0x71_70_00_10_09_10, para),
        (0xe8, host, 0x55_91_90_00_00_50),
    ];
    for (queue, host, para) in strangers {
        let words = [counts, front, queue, 0, host, para];
        assert!(rt;
            Chip::unpack(words).is_none(),
            "{queue:x} {host:x} {para:x}"
        );
    }
}

#[test]
fn a_rising_list_is_a_merge_and_a_packing_is_of_one_chip() {
    rising_list_is_merge();
    packing_is_one_to_one();
}
