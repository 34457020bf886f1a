//! Bits, the order of accesses, and a lack of memory.
use beeb_bits::{NoMemory, Side, Tick, before, bit};
use std::test::Fail;

/// A byte, the number of a bit, and true if that bit is set.
const BITS: [(u8, u8, bool); 5] = [
    (0x01, 0, true),
    (0x01, 1, false),
    (0x80, 7, true),
    (0x7f, 7, false),
    (0x20, 5, true),
];

#[test]
fn bits_count_from_the_lowest(rt: HostRuntime) {
    for (value, place, want) in &BITS {
        assert!(rt; bit(*value, *place % 8) == *want, "bit {place} of {value}");
    }
}

/// Two moments, and true if the first is before the other.
const MOMENTS: [(u64, Side, u64, Side, bool); 7] = [
    (5, Side::Host, 6, Side::Host, true),
    (6, Side::Host, 5, Side::Para, false),
    (5, Side::Para, 6, Side::Host, true),
    (6, Side::Host, 6, Side::Para, true),
    (6, Side::Para, 6, Side::Host, false),
    (6, Side::Host, 6, Side::Host, false),
    (6, Side::Para, 6, Side::Para, false),
];

#[test]
fn the_host_goes_first_at_one_tick(rt: HostRuntime) {
    for (n, (a, x, b, y, want)) in MOMENTS.iter().enumerate() {
        assert!(rt; before(Tick(*a), *x, Tick(*b), *y) == *want, "row {n}");
    }
}

#[test]
fn want_of_memory_has_a_text(rt: HostRuntime) -> Result<(), Fail> {
    let text = format!(in rt.alloc(); "{NoMemory}")?;
    assert!(rt; text.as_str() == "no memory");
    Ok(())
}
