//! Register programs, with values by hand from the data sheet.
mod programs;

use crate::tests::words::{byte, digit};
use programs::PROGRAMS;
use via6522::{Pins, Via, timer1_fires_once, timer1_runs_free, timer2_fires_once};

const HIGH: Pins = Pins {
    a: 0xff,
    b: 0xff,
    ca1: true,
    ca2: true,
    cb1: true,
    cb2: true,
};

/// A chip with the levels of its pins.
#[derive(Drop)]
struct Bench {
    via: Via,
    pins: Pins,
    /// Steps are done one by one if set, otherwise at once.
    single: bool,
}

fn number(digits: &[u8]) -> u64 {
    let mut n: u64 = 0;
    for b in digits {
        n = n % (1 << 56) * 16 + u64::from(digit(*b));
    }
    n
}

impl Bench {
    fn steps(&mut self, n: u64) {
        if self.single {
            for _ in 0..n {
                self.via.step(self.pins);
            }
        } else {
            self.via.advance(self.pins, n);
        }
    }

    fn line(&mut self, port: u8, number: u8, level: bool) {
        match (port == b'A', number == b'1') {
            (true, true) => self.pins.ca1 = level,
            (true, false) => self.pins.ca2 = level,
            (false, true) => self.pins.cb1 = level,
            (false, false) => self.pins.cb2 = level,
        }
    }

    /// Does one word of a program. Returns true if it holds.
    fn holds(&mut self, word: &[u8]) -> bool {
        match word {
            b"irq" => return self.via.irq(),
            b"calm" => return !self.via.irq(),
            [b'+', digits @ ..] => self.steps(number(digits)),
            [b'C', port, number, b'+'] => self.line(*port, *number, true),
            [b'C', port, number, b'-'] => self.line(*port, *number, false),
            [b'a', b'<', high, low] => self.pins.a = byte(*high, *low),
            [b'b', b'<', high, low] => self.pins.b = byte(*high, *low),
            [b'a', b'>', high, low] => return self.via.out_a() == byte(*high, *low),
            [b'b', b'>', high, low] => return self.via.out_b() == byte(*high, *low),
            [reg, b'=', high, low] => self.via.write(digit(*reg), byte(*high, *low)),
            [reg, b'?', high, low] => {
                return self.via.read(digit(*reg), self.pins) == byte(*high, *low);
            }
            _ => return false,
        }
        true
    }

    /// Does a program. Returns true if all of it holds.
    fn does(&mut self, program: &str) -> bool {
        let mut holds = true;
        for word in program.split(' ') {
            holds &= self.holds(word.as_bytes());
        }
        holds
    }
}

fn power_on(single: bool) -> Bench {
    Bench {
        via: Via::new(),
        pins: HIGH,
        single,
    }
}

#[test]
fn registers_do_what_the_data_sheet_says(rt: HostRuntime) {
    for program in &PROGRAMS {
        let holds = power_on(false).does(*program) & power_on(true).does(*program);
        assert!(rt; holds, "{program}");
    }
}

/// Returns all registers after a program.
fn registers(single: bool, program: &str) -> Option<[u8; 16]> {
    let mut bench = power_on(single);
    let holds = bench.does(program);
    let mut registers = [0; 16];
    for reg in 0..16u8 {
        registers[usize::from(reg)] = bench.via.read(reg, HIGH);
    }
    if holds { Some(registers) } else { None }
}

#[test]
fn steps_at_once_are_steps_one_by_one(rt: HostRuntime) {
    timer1_runs_free();
    timer1_fires_once();
    timer2_fires_once();
    let program = "B=40 4=05 5=00 8=03 9=01 E=FF +15";
    let one_by_one = registers(true, program);
    assert!(rt; one_by_one.is_some() && registers(false, program) == one_by_one);
}

#[test]
fn a_million_million_steps_cost_what_one_costs(rt: HostRuntime) {
    assert!(rt; power_on(false).does("B=40 4=05 5=00 +E8D4A51000 D?40 4?05 8?00 9?F0"));
}

#[test]
fn it_asks_as_before_through_calm_steps(rt: HostRuntime) {
    let mut bench = power_on(false);
    let is_begun = bench.does("E=C0 4=10 5=27 +1");
    let calm = bench.via.calm(HIGH);
    let asks = bench.does("+2710 calm +1 irq");
    assert_eq!(rt; (calm, bench.via.calm(HIGH)), (0x2710, u64::MAX));
    assert!(rt; is_begun & asks);
}
