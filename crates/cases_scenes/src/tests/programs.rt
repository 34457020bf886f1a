//! The programs and the lines that many scenes have, by their names.

// Two letters from the Tube's register 1 to 0070 and 0071.
const LETTERS_OS: &str = "\
org &C000
LDX #0
wait: LDA &FEE0
BPL wait
LDA &FEE1
STA &70,X
INX
CPX #2
BNE wait
here: JMP here
org &FFFC
word &C000, 0
";

// The ROM's code copied to the RAM below, and H and I to the Tube's register 1.
const LETTERS_TUBE: &str = "\
org &F800
start: LDX #31
copy: LDA &F800,X
STA &F800,X
DEX
BPL copy
LDA #&48
STA &FEF9
LDA #&49
STA &FEF9
stop: JMP stop
org &FFFC
word start, 0
";

// One jump to itself.
const LOOP_OS: &str = "\
org &C000
here: JMP here
org &FFFC
word here, 0
";

const LOOP_TUBE: &str = "\
org &F800
loop: JMP loop
org &FFFC
word loop, 0
";

/// Returns the source text of the program of this name in the operating system, or in the second
/// processor's boot ROM. It is empty if there is none.
pub(crate) fn program(file: &str, name: &str) -> &'static str {
    match (file, name) {
        ("os", "letters") => LETTERS_OS,
        ("tube", "letters") => LETTERS_TUBE,
        ("os", "loop") => LOOP_OS,
        ("tube", "loop") => LOOP_TUBE,
        _ => "",
    }
}

/// The parts that all scenes can name in a line `do`.
pub(crate) const PARTS: &str = "\
part os
os
| org &C000
end
part tube
tube
| org &F800
end
part start
| org &FFFC
| word &{}, 0
end
part begin
| org &FFFC
| word start, 0
end
part here
| here: JMP here
do start C000
end
part copied
do tube
| LDX #{}
| copy: LDA &F800,X
| STA &F800,X
| DEX
| BPL copy
end
part entries
| 0000000{}
end
part ok
$ check t
= 0: ok {}
end
part wrong
$ check t
= 8: wrong {}
end
part bad
$ check t
= 4 bad trace {}
end
part host
$ replay host t {1} o --os os
= 0
file o.report
| ticks {1}
| host {3+}
| tube {2}
| frames 0
end
part para
$ replay para t {1} o --tube tube
= 0
file o.report
| ticks {1}
| para {3+}
| tube {2}
end
part letters
| ticks 2000
| host PC=C011 A=49 X=02 Y=00 S=FD P=27
| para PC=F815 A=49 X=FF Y=00 S=FD P=24
| tube 49
| kept {}
| frames 0
end
part replays
$ replay host t {} o --os os
= 0
same o.host
$ replay para t {} o --tube tube
= 0
same o.para
end
part same
keep
run {}
= 0
same o.report o.host o.para o.trace
end
part status-code
do tube
| start: JMP &FEF8
do begin
end
part timed
| start: LDX #13
| next: STX &FE00
| LDA timing,X
| STA &FE01
| DEX
| BPL next
end
part page
| timing: byte &3F,&28,&33,&24,&1E,&02,&19,&1B,&93,&12,&20,0,&28,0
end
part clock
| LDA #&7F
| STA &FE43
| LDA #&0F
| STA &FE42
| LDA #&03
| STA &FE40
| LDA #&40
| STA &FE4B
| LDA #&C0
| STA &FE4E
| LDA #&0E
| STA &FE44
| LDA #&27
| STA &FE45
| CLI
end
part scan
| INC &70
| LDX #&7F
| scan: STX &FE4F
| LDA &FE4F
| BMI found
| DEX
| CPX #&0F
| BNE scan
| LDX #&FF
| found: CPX &71
| BEQ out
| STX &71
| CPX #&FF
| BEQ out
| STX &FEE1
end
part keyed
do tube
| start: LDX #63
| copy: LDA &F800,X
| STA &F800,X
| DEX
| BPL copy
| INX
| wait: BIT &FEF8
| BPL wait
| LDA &FEF9
| STA &80,X
| INX
| JMP wait
| org &FFFA
| word start, start, start
end
part break-list
file o.list
| 0000000015 C000 A=00 X=00 Y=00 S=FD P=24 JMP &C000
| 000000001E C000 A=00 X=00 Y=00 S=FD P=24 JMP &C000
| 0000000027 C000 A=00 X=00 Y=00 S=FD P=24 JMP &C000
| 0000000030 C000 A=00 X=00 Y=00 S=FD P=24 JMP &C000
| 0000000039 C000 A=00 X=00 Y=00 S=FD P=24 JMP &C000
| 0000000057 C000 A=00 X=00 Y=00 S=FA P=24 JMP &C000
| 0000000060 C000 A=00 X=00 Y=00 S=FA P=24 JMP &C000
end
part unlike
$ replay host t 100 o --os os
= {}
none o.report o.host
end
part follows
$ follow {2+}
= 0: listed {1} of {1}
end
";
