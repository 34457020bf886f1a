//! The colours of bytes, by hand from the user guide's table of palette entries.
use video_ula::Ula;

/// A full stop, as a digit.
const DOT: u8 = 254;

/// A line is the control byte, a byte, `cursor` if the cursor marks it, and the colours of its dots
/// as digits. Entry n of the palette has the value n.
const ROWS: &str = "\
00 1B - 3333333355555555
00 E4 cursor 3333333355555555
04 1B - 3333555577773333
04 E4 cursor 3333555566662222
08 1B - 3355773377777777
08 E4 cursor 3355662244440000
0C 1B - 3573777777777777
0C E4 cursor 3562440000000000
10 1B - 33333333........
10 E4 cursor 33333333........
14 1B - 33335555........
14 E4 cursor 33335555........
18 1B - 33557733........
18 E4 cursor 33556622........
1C 1B - 35737777........
1C E4 cursor 35624400........
# Entries from 8 on flash: their colours are inverted while bit 0 is set.
01 1B - 3333333355555555
01 E4 cursor 4444444422222222
05 1B - 3333555577774444
05 E4 cursor 4444222211112222
19 1B - 33557744........
19 E4 cursor 44221122........
1D 1B - 35740700........
1D E4 cursor 42124300........
# Bit 1 and the cursor's bits do not matter here.
E2 1B - 3333333355555555
E2 E4 - 4444444422222222
";

fn number(digits: &str) -> Option<u8> {
    u8::from_str_radix(digits, 16).ok()
}

// Returns true if the dots are these digits.
fn are(dots: &[u8; 16], digits: &str) -> bool {
    for (dot, digit) in dots.iter().zip(digits.as_bytes()) {
        if dot.wrapping_add(b'0') != *digit {
            return false;
        }
    }
    digits.len() == 16
}

// Returns true if a byte has the colours of its line.
fn is_right(ula: &mut Ula, line: &str) -> Option<bool> {
    let mut words = line.split(' ');
    let control = number(words.next()?)?;
    let byte = number(words.next()?)?;
    let is_marked = words.next()? == "cursor";
    ula.control(control);
    // Dots that are not written stay full stops.
    let mut to = [DOT; 16];
    let count = ula.pixels(byte, is_marked, &mut to);
    let want = if control & 0x10 == 0 { 16 } else { 8 };
    Some(ula.mode() == control && count == want && are(&to, words.next()?))
}

#[test]
fn a_byte_has_its_colours(rt: HostRuntime) {
    let mut ula = Ula::new();
    for entry in 0..16u8 {
        ula.palette(16 * entry + (entry ^ 7));
    }
    for line in ROWS.lines() {
        if !line.starts_with('#') {
            assert!(rt; is_right(&mut ula, line) == Some(true), "{line}");
        }
    }
}

#[test]
fn at_power_on_all_is_black(rt: HostRuntime) {
    let ula = Ula::new();
    let mut to = [9; 16];
    assert_eq!(rt; ula.mode(), 0);
    assert_eq!(rt; ula.pixels(0xa5, false, &mut to), 16);
    assert_eq!(rt; to, [0; 16]);
}
