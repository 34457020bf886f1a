//! Register programs of the converter, with values by hand from the data sheet.
use crate::tests::words::{byte, digit, number};
use adc7002::{
    Adc, a_conversion_ends_in_time, a_conversion_given_up_leaves_nothing,
    a_conversion_goes_on_until_its_end,
};

/// Words: `R=VV` writes a register, `R?VV` reads one, `C<LLLL` sets the level of a channel, and
/// `+N` does N steps (decimal). `high` and `low` are the line to CB1.
const PROGRAMS: &str = "\
0?40 1?00 2?00 3?FE high +0 +20000 0?40 high
1<8000 0=01 0?81 +3999 0?81 high +1 0?61 1?80 2?00 low
# To 12 bits, on channel 2.
2<ABCD 0=0A 0?8A +9999 0?8A high +1 0?6A 1?AB 2?C0 low
# Four bits are kept.
2<FFFF 0=56 0?86 +4000 0?76 1?FF 2?00 3?FE low
# Other writes begin nothing, and give nothing up.
1<8000 1=FF 2=FF 3=FF 0?40 high +20000 0?40 high 1?00
0<FFFF 0=00 +2000 1=0F 2=0F 3=0F +1999 0?80 +1 0?70 1?FF low
# Given up one step before its end, by one of either kind.
0<FFFF 0=00 +3999 0=00 0?80 +3999 0?80 high 1?00 +1 0?70 1?FF low
3<4000 0=03 +3999 0=0B +6001 0?8B high 1?00 +3998 0?8B +1 0?5B 1?40 2?00 low
# The level is that of the end, of one channel alone.
0<1230 0=08 +9998 0<5670 +1 0<9AB0 0?88 1?00 +1 0?68 1?9A 2?B0 0<FFFF +50 1?9A 2?B0 low
0<FFFF 1<1000 2<FFFF 3<FFFF 0=01 +4000 0?41 1?10
0<1230 0=08 +12000 0?48 1?12 2?30 low
# The earlier result stands until then.
0<C0D0 0=08 +10000 0?78 1?C0 2?D0 low 0<0000 0=00 0?B0 1?C0 2?D0 high +3999 0?B0 2?D0 high +1 0?40 1?00 2?00 low
";

/// A converter, with the levels of its channels.
#[derive(Drop)]
struct Bench {
    adc: Adc,
    levels: [u16; 4],
    /// Steps are done one by one if set, otherwise at once.
    single: bool,
}

impl Bench {
    fn steps(&mut self, n: u32) {
        if self.single {
            for _ in 0..n {
                self.adc.advance(self.levels, 1);
            }
        } else {
            self.adc.advance(self.levels, u64::from(n));
        }
    }

    fn put(&mut self, channel: u8, high: u8, low: u8) {
        self.levels[usize::from(channel % 4)] = u16::from_be_bytes([high, low]);
    }

    /// Does one word of a program. Returns true if it holds.
    fn holds(&mut self, word: &[u8]) -> bool {
        match word {
            b"high" => return self.adc.cb1(),
            b"low" => return !self.adc.cb1(),
            [b'+', digits @ ..] => self.steps(number(digits)),
            [channel, b'<', a, b, c, d] => self.put(digit(*channel), byte(*a, *b), byte(*c, *d)),
            [reg, b'=', high, low] => self.adc.write(digit(*reg), byte(*high, *low)),
            [reg, b'?', high, low] => {
                return self.adc.read(digit(*reg) % 4) == byte(*high, *low);
            }
            _ => return false,
        }
        true
    }
}

/// Returns true if all of a program holds.
fn does(program: &str, single: bool) -> bool {
    let mut bench = Bench {
        adc: Adc::new(),
        levels: [0; 4],
        single,
    };
    let mut holds = true;
    for word in program.split(' ') {
        holds &= bench.holds(word.as_bytes());
    }
    holds
}

#[test]
fn conversions_do_what_the_data_sheet_says(rt: HostRuntime) {
    a_conversion_ends_in_time();
    a_conversion_goes_on_until_its_end();
    a_conversion_given_up_leaves_nothing();
    for program in PROGRAMS.lines() {
        if !program.starts_with('#') {
            assert!(rt; does(program, false) & does(program, true), "{program}");
        }
    }
}
