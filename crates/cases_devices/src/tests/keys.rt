//! Keys, and the latch before them.
use crate::tests::words::{byte, digit};
use keyboard::{Keys, Latch};

// Makes the latch with the bits of a byte, bit 0 the lowest, by eight writes to port B.
fn latch(bits: u8) -> Latch {
    let mut latch = Latch::new();
    for n in 0..8u8 {
        latch.write(n + 8 * (bits >> n & 1));
    }
    latch
}

/// Does a word. Returns true if it holds. `41+` and `41-` press and release a key; `41?` and `41!`
/// say that it is down or up. `any` and `none` say that a key, or none, counts; `c1?` and `c0!` say
/// the same of a column.
fn holds(keys: &mut Keys, word: &[u8]) -> bool {
    match word {
        b"any" => return keys.any(None),
        b"none" => return !keys.any(None),
        [b'c', column, b'?'] => return keys.any(Some(digit(*column))),
        [b'c', column, b'!'] => return !keys.any(Some(digit(*column))),
        [high, low, b'+'] => keys.set(byte(*high, *low) % 128, true),
        [high, low, b'-'] => keys.set(byte(*high, *low) % 128, false),
        [high, low, b'?'] => return keys.is_down(byte(*high, *low) % 128),
        [high, low, b'!'] => return !keys.is_down(byte(*high, *low) % 128),
        _ => return false,
    }
    true
}

/// From no key on. Row 0 does not count.
const PRESSES: &str =
    "41! none 41+ 41? 40! 31! any c1? c0! 7F+ 41- 41! 7F? any c1! cF? 7F- 0F+ 0F? none cF! 1F+ any cF?";

#[test]
fn a_key_is_down_from_its_set_on(rt: HostRuntime) {
    let mut keys = Keys::new();
    for word in PRESSES.split(' ') {
        assert!(rt; holds(&mut keys, word.as_bytes()), "{word}");
    }
}

/// The latch, the output bits of port A, bit 7 and CA2 while key 41 alone is down.
const SHOWN: [(u8, u8, bool, bool); 8] = [
    (0x00, 0x41, true, true),
    (0x00, 0xc1, true, true),
    (0x00, 0x40, false, false),
    (0x00, 0x01, false, true),
    (0x00, 0x71, false, true),
    (0xf7, 0x41, true, true),
    (0x08, 0x41, false, true),
    (0x08, 0x40, false, true),
];

/// Returns bit 7 of port A and CA2.
fn shown(keys: &Keys, bits: u8, port_a: u8) -> (bool, bool) {
    let latch = latch(bits);
    (keys.port_a_bit_7(&latch, port_a), keys.ca2(&latch, port_a))
}

#[test]
fn the_latch_says_what_the_keyboard_shows(rt: HostRuntime) {
    let mut keys = Keys::new();
    keys.set(0x41, true);
    for (bits, port_a, bit_7, ca2) in &SHOWN {
        assert!(rt;
            shown(&keys, *bits, *port_a) == (*bit_7, *ca2),
            "{bits} {port_a}"
        );
    }
    keys.set(0x41, false);
    assert!(rt; !shown(&keys, 0x08, 0x41).1 & !shown(&keys, 0x00, 0x41).1);
}

/// Writes to port B from power-on, and the latch's bits after each, bit 0 first.
const WRITES: [(u8, [bool; 8]); 5] = [
    (
        0x0c,
        [false, false, false, false, true, false, false, false],
    ),
    (0xff, [false, false, false, false, true, false, false, true]),
    (0xf8, [true, false, false, false, true, false, false, true]),
    (0x04, [true, false, false, false, false, false, false, true]),
    (0x0b, [true, false, false, true, false, false, false, true]),
];

#[test]
fn a_write_to_port_b_changes_one_bit_of_the_latch(rt: HostRuntime) {
    let mut latch = Latch::new();
    for (p, bits) in &WRITES {
        latch.write(*p);
        assert!(rt; latch.bits == *bits, "{p}");
    }
    assert!(rt; latch.scans_itself());
}

#[test]
fn the_screen_has_one_of_four_sizes(rt: HostRuntime) {
    let sizes = [
        latch(0x00).screen_size(),
        latch(0x10).screen_size(),
        latch(0x20).screen_size(),
        latch(0x30).screen_size(),
        latch(0xdf).screen_size(),
    ];
    assert_eq!(rt; sizes, [16_384, 8_192, 20_480, 10_240, 8_192]);
}
