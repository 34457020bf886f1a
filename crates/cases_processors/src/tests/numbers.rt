//! Digits, written and read.
use digits::{
    all_hex, all_hex_any_case, decimal_number, decimal_reads_back, decimal_value, four_digits,
    hex_number, hex_reads_back, ten_digits, two_digits,
};

#[test]
fn digits_are_upper_case_and_read_in_either_case(rt: HostRuntime) {
    assert!(rt; two_digits(0x4a) == *b"4A");
    assert!(rt; four_digits(0xc011) == *b"C011");
    assert!(rt;
        [ten_digits(0x3fc), ten_digits(0xfe_dcba_9876)] == [*b"00000003FC", *b"FEDCBA9876"]
    );
    assert!(rt; hex_number(b"fedcBA9876543210") == 0xfedc_ba98_7654_3210);
    let are = [
        all_hex(b"4a"),
        all_hex_any_case(b"4a"),
        all_hex_any_case(b"4g"),
    ];
    assert!(rt; are == [false, true, false]);
}

/// A text, the largest allowed number, and the number.
const NUMBERS: [(&str, u64, Option<u64>); 10] = [
    ("0", 0, Some(0)),
    ("7", 6, None),
    ("18446744073709551615", u64::MAX, Some(u64::MAX)),
    ("18446744073709551616", u64::MAX, None),
    ("99999999999999999999999999999999999999999", u64::MAX, None),
    ("", 9, None),
    ("00", 9, None),
    ("01", 9, None),
    ("+1", 9, None),
    ("1a", 99, None),
];

#[test]
fn a_decimal_number_has_no_leading_zero_and_a_most(rt: HostRuntime) {
    hex_reads_back();
    decimal_reads_back();
    assert!(rt; decimal_value(b"0042") == 42);
    for (text, most, want) in &NUMBERS {
        assert!(rt; decimal_number(text.as_bytes(), *most) == *want, "{text}");
    }
}
