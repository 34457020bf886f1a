//! The programs. `4=05` writes 05 to register 4, `D?40` reads 40 from register D, and `+6` does six
//! steps. All numbers are hexadecimal. `CA1-` and `CA1+` drive that line low and high. `a<3C` puts
//! 3C on port A's pins, and `a>F5` says that port A's output bits are F5. `irq` and `calm` say that
//! the interrupt is, or is not, asked for. All pins are high at first.
pub(crate) const PROGRAMS: [&str; 96] = [
    // Power-on.
    "0?FF 1?FF 2?00 3?00 4?00 5?00 6?00 7?00 8?00 9?00 A?00 B?00 C?00 D?00 E?80 F?FF a>FF b>FF calm",
    "+1 4?FF 5?FF 8?FF 9?FF D?00",
    // Timer 1, once: the flag comes v + 2 steps after the write, and a read of the low byte clears
    // it.
    "4=05 5=00 +6 D?00 +1 D?40",
    "4=05 5=00 +7 4?FF D?00",
    "4=05 5=00 +7 5?FF D?40",
    "4=05 5=00 +A 5?FF 4?FC",
    "4=05 5=00 +7 4?FF +10000 4?FF D?00",
    "4=FF 5=FF +1 D?00 5?FF 4?FF +FFFF 5?00 4?00 D?00 +1 D?40",
    "4=00 5=00 +1 4?00 D?00 +1 D?40",
    "4=00 5=01 +101 D?00 4?00 5?00 +1 D?40",
    "6=22 5=11 4?22 5?11 +1 4?22 5?11 +1 4?21 5?11",
    // An access just before the timer runs out, and just after.
    "4=05 5=00 +6 4?00 D?00 +1 D?40",
    "4=05 5=00 +6 5=00 +6 D?00 +1 D?40",
    "4=05 5=00 +7 5=00 D?00 +6 D?00 +1 D?40",
    "4=05 5=00 +7 7=12 D?00 6?05 7?12 5?FF +10000 D?00",
    "4=05 5=00 +7 6=34 D?40 6?34 4?FF",
    "4=05 5=00 +7 4=34 D?40 6?34 4?FF",
    "4=05 5=00 +3 4=99 4?03 6?99 7?00",
    "4=01 5=00 +3 D?40 D=40 D?00 5=00 +2 D?00 +1 D?40",
    // Timer 1, running free: the flag comes every v + 2 steps.
    "B=40 4=05 5=00 +6 D?00 +1 D?40 4?FF D?00 +6 D?00 +1 D?40",
    "B=40 4=05 5=00 +8 4?05 +1 4?04",
    "B=40 4=05 5=00 +7 D=40 D?00 +46 D?40 4?FF",
    "B=40 4=00 5=00 +2 D?40 D=40 +1 D?00 4?00 +1 D?40 4?FF",
    "B=40 4=02 5=00 +3 4=04 +1 D?40 4?FF +1 4?04 +4 D?00 +1 D?40",
    "B=40 4=02 5=00 +4 D?40 7=01 D?00 +1 4?02 5?01",
    "B=40 4=01 5=00 +9 D?40",
    "B=40 +1 D?40 4?FF D?00 +1 4?00 D?00 +1 D?40",
    "B=C0 4=01 5=00 +3 D?40 4?FF +1 4?01 0?FF",
    // Timer 1, changed in the middle.
    "4=05 5=00 +5 B=40 +2 D?40 +1 4?05",
    "B=40 4=05 5=00 +7 B=00 +1 4?05 +5 4?00 +1 D?40 4?FF +1 4?FE D?00",
    "4=05 5=00 +7 B=40 4?FF +10000 D?40 +1 4?05",
    // Timer 2: it counts from the second step on, and sets its flag once.
    "8=05 9=00 +6 D?00 +1 D?20",
    "8=05 9=00 8?05 9?00 +1 8?05 +1 8?04 +1 8?03",
    "8=05 9=00 +7 8?FF D?00",
    "8=05 9=00 +7 9?FF D?20",
    "8=05 9=00 +A 9?FF 8?FC",
    "8=05 9=00 +7 8?FF +10000 8?FF D?00",
    "8=00 9=00 +1 D?00 +1 D?20",
    "8=FF 9=FF +FFFF D?00 8?01 9?00 +1 8?00 D?00 +1 D?20",
    "8=05 9=00 8=77 +1 8?05 9=00 8?77",
    "8=05 9=00 +6 8?00 D?00 +1 D?20",
    "8=01 9=00 +2 9=00 +2 D?00 +1 D?20",
    "8=01 9=00 +3 D?20 9=00 D?00 +2 D?00 +1 D?20",
    "8=01 9=00 +3 8=55 D?20 8?FF D?00",
    "B=40 8=05 9=00 +7 D?60 8?FF D?40 +10000 D?40",
    // Timer 2, which does not count steps while it counts pulses.
    "B=20 8=05 9=00 +FF 8?05 9?00 D?00",
    "B=20 8=05 9=00 +3 B=00 +1 8?05 +5 D?00 +1 D?20",
    "8=05 9=00 +3 B=20 +9 8?03 B=00 +3 D?00 +1 D?20",
    "8=05 9=00 +6 B=20 +9 D?00 8?00 B=00 +1 D?20",
    // Both timers.
    "4=02 5=00 8=03 9=00 +4 D?40 +1 D?60 4?FE D?20 8?FF D?00",
    "B=60 4=00 5=00 8=00 9=00 +2 D?40 8?00",
    // The flags, those that are enabled, and bit 7 of the flags.
    "E=C0 E?C0 E=A0 E?E0 E=FF E?FF",
    "E=FF E=7F E?80 E=E0 E=40 E?A0 E=00 E?A0 E=80 E?A0",
    "E=C0 4=00 5=00 +1 D?00 calm +1 D?C0 irq",
    "4=00 5=00 +2 D?40 calm E=C0 D?C0 irq E=40 D?40 calm",
    "E=BF 4=00 5=00 +2 D?40 calm",
    "E=A0 4=00 5=00 8=00 9=00 +2 D?E0 irq 8?FF D?40 calm",
    "4=00 5=00 8=00 9=00 +2 D?60 D=20 D?40 D=40 D?00",
    "E=C0 4=00 5=00 +2 D=80 D?C0 D=00 D?C0 D=BF D?C0 D=C0 D?00 calm",
    "E=82 C=01 +1 D?82 irq 1?FF D?00 calm",
    "E=88 CB2- +1 D?88 irq 0?FF D?00 calm",
    "E=90 CB1- +1 D?90 irq D=10 calm",
    "E=81 C=04 +1 D?81 irq 1=00 calm",
    // CA1, which was low before the first step.
    "C=00 +1 D?00",
    "C=01 +1 D?02 1?FF D?00",
    "+1 CA1- D?00 +1 D?02 +5 D?02",
    "+1 CA1- +1 D=02 +3 D?00 CA1+ +1 D?00 CA1- +1 D?02",
    "C=01 +1 D=02 CA1- +1 D?00 CA1+ +1 D?02 1=00 D?00 +9 D?00",
    "CA1- +1 C=01 +1 D?00 C=00 +1 D?00",
    "+1 CA1- CA1+ +1 D?00",
    // CA2 in each mode: down, independent; up, independent; and as an output.
    "+1 CA2- +1 D?01 1?FF D?00",
    "C=02 +1 CA2- +1 D?01 1?FF D?01 1=00 D?01 D=01 D?00",
    "C=04 +1 D?01 CA2- +1 D?01 1=00 D?00",
    "C=06 +1 D?01 1=00 D?01 1?FF D?01",
    "C=08 +1 CA2- +1 CA2+ +1 D?00",
    "C=0A +1 CA2- +1 CA2+ +1 D?00",
    "C=0C +1 CA2- +1 CA2+ +1 D?00",
    "C=0E +1 CA2- +1 CA2+ +1 D?00",
    "C=04 +1 D?01 C=0A 1?FF D?01 C=08 1?FF D?00",
    "C=08 +1 CA2- +1 C=00 +1 D?00",
    // CB1, which was high before the first step.
    "CB1- +1 D?10 0?FF D?00",
    "C=10 CB1- +1 D?00 CB1+ +1 D?10 0=00 D?00",
    // CB2 in each mode.
    "CB1- CB2- +1 D?18 0?FF D?00",
    "C=20 CB1- CB2- +1 D?18 0?FF D?08 0=00 D?08",
    "C=40 CB2- +1 D?00 CB2+ +1 D?08 0?FF D?00",
    "C=60 CB2- +1 D?00 CB2+ +1 D?08 0?FF D?08 0=12 D?08",
    "C=80 CB2- +1 CB2+ +1 D?00",
    "C=E0 CB2- +1 CB2+ +1 D?00",
    "C=40 CB2- +1 CB2+ +1 D?08 C=A0 0?FF D?08 C=80 0=00 D?00",
    "C=55 +1 D?03 CB1- CB2- +1 D?03 CB1+ CB2+ +1 D?1B",
    // Each port's access clears the flags of its own lines, and register F none.
    "CB1- CB2- +1 1?FF 1=00 D?18",
    "C=05 +1 D?03 0?FF 0=00 D?03 F?FF F=12 D?03 1=12 D?00",
    // Ports: output bits are those written, and the others the pins'.
    "1=A5 a>FF 1?FF 3=0F a>F5 1?F5 a<3C 1?35 F?35 3=FF 1?A5 a>A5",
    "0=5A b<81 0?81 b>FF 2=F0 b<3C 0?5C b>5F 2=FF 0?5A",
    "3=FF F=77 1?77 F?77 a>77 3?FF 2=C3 2?C3 3=3C 3?3C a>F7",
    // The shift register never shifts, and the control registers read back.
    "A=5A A?5A D?00 +FF A?5A D?00 B=9F B?9F C=EE C?EE",
];
