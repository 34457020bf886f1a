//! Source texts with their bytes, and with their first offending line.
use asm65::{AsmError, Image, assemble};
use digits::{four_digits, two_digits};
use op_table::Part::{self, Cmos, Nmos};
use op_table::{Mode, Row, documented};
use std::alloc::{AllocError, Global};
use std::test::Fail;

// A line is a case: the part and a source text's result, and after `@` the text, in which `|` ends
// a line. The result is the origin and the bytes, or the first offending line. If it is missing, it
// is that of the line above.
const TEXTS: &str = "\
6502 C000 A9 41 8D 70 00 D0 F9@org &C000|start: LDA #&41|STA &0070|BNE start
65C02 0000 B2 12@LDA (&12)|
6502 0000@
@||
# Blanks, comments and cases.
6502 0000 A9 01@ \t; org 5: #||\tlda\t# 1 ;x|
6502 0000 0A 0A 2A@asl a|ASL A|rOl\tA ; A
6502 0000 A1 12 B1 12@lda(&12,x)|LDA ( &12 ) , Y|
# Labels take a word, before their line and behind it, and their case counts.
6502 0000 AD 03 00 AD 03 00@LDA later|later: LDA later|
6502 0000 01 02 01 00 02 00@_a: byte 1|A1: byte 2|a1: word A1,a1
6502 0000 AD 00 00@LDA: LDA LDA
6502 1234 A9 34 A9 12 8D 44 12 A5 34 B1 12@org &1234|x1: LDA #<x1|LDA #>x1 + 1|STA x1 + &10|LDA <x1|LDA (>x1),Y
# Numbers of one byte and of two.
6502 0000 A5 07 A5 07 AD 07 00 A5 FF@LDA &7|LDA &07|LDA &007|LDA &fF
6502 0000 A5 07 A5 FF AD 00 01 A5 07@LDA 7|LDA 255|LDA 256|LDA 00007
6502 0000 01 02 FF 04 01 00 34 12 04 00 FF FF@byte 1, 2,&fF,<x1|x1: WORD 1,&1234, x1 , 65535
# The form in the zero page where there is one.
6502 0000 B9 12 00 96 12 BE 34 12@LDA &12,Y|STX &12,Y|LDX &1234,Y
65C02 0000 4C 12 00 6C 12 00 7C 12 00 20 34 12@JMP &12|JMP (&12)|JMP (&12,X)|JSR &1234
# `org` fills with 00, and a label in front of it keeps the address before.
6502 0004 01 00 00 00 00 00 08 00@org 4|byte 1|org 8|end: org 10|word end
6502 2000 00 20@first: org &2000|word first
6502 0000 01 00 00 02@byte 1|org 3|byte 2
6502 0000 01 02@byte 1|org 1|byte 2
6502 FFFF@org 65535
# The farthest branches, also past either end of memory.
6502 1000 D0 80@org &1000|BNE &0F82
6502 1000 D0 7F@org &1000|BNE &1081
6502 0000 D0 8E@BNE &FF90
6502 FFF0 D0 1E@org &FFF0|BNE &0010
65C02 0000 80 FE@here: bra here
# The last bytes of memory, and a label behind them.
6502 FFFE 01 02@org 65534|byte 1,2
6502 FFFD 6C FC FF@org &FFFD|JMP (&FFFC)
6502 FFFF 01@org 65535|byte 1|end:
6502 0000 FF FF@x1: word x1 + 65535
6502 0000 FF A9 FF@byte 255|LDA #255
# Outside the syntax, and no such form.
6502 line 3: syntax@lda #1||foo bar|
6502 line 1: syntax@A: byte 1
@x:
@Y:
@1a: byte 1
@a1: b1: byte 1
@LDA #1\r|
@LDA 123456
@LDA &12345
@LDA &
@LDA #
@LDA x
@LDA #1 2
@LDA (1),X
@LDA (1,Y)
@LDA 1,Z
@LDA 1 + 1
@LDA <
@byte
@byte 1,
@org start
@org 1,2
6502 line 1: no such form of the instruction@LDA (&12)
@BRA 0
@INX 1
@ASL
@STA #1
@STX &1234,Y
@LDA (&1234),Y
@LDA (&1234,X)
@JMP (&1234,X)
65C02 line 1: no such form of the instruction@LDA (x1)|x1:
6502 line 3: the label stands at an earlier line@a1:|A1:|a1: inx
6502 line 2: out of range@org 5|org 4
@byte 1|org 0
6502 line 1: out of range@org 65536
@LDA 99999
@x1: byte <x1 + 65536
6502 line 2: past the end of memory@org 65535|word 1
@org 65534|LDA &1234
6502 line 3: past the end of memory@org 65535|byte 1|byte 2
6502 line 1: unknown label@byte q
@q: LDA Q + 1
6502 line 1: out of range@byte 256
@LDA #256
6502 line 2: out of range@org &1000|BNE &1082
@org &1000|BNE &0F81
@byte 0|x1: word x1 + 65535
@org 65533|word end|byte 0|end:
@org 65534|byte <end,0|end:
# Of several things on one line.
6502 line 2: syntax@a1:|a1: foo
6502 line 2: no such form of the instruction@a1:|a1: INX 1
6502 line 2: the label stands at an earlier line@a1:|a1: byte 99999
6502 line 2: out of range@org 65535|word 99999
6502 line 1: unknown label@byte 256,q
# Of several lines, and of a line of either pass.
6502 line 1: no such form of the instruction@INX 1|foo
6502 line 1: out of range@byte 256|byte q
6502 line 2: syntax@byte q|foo
6502 line 2: out of range@byte q,256|org 1
";

// A line is a text that fills the memory, in which `|` ends a line: its beginning, a piece and the
// number of its repetitions, and its end. Then come the text that is too much, and the result with
// it.
const FULL: &str = "\
@LDA &1234,X|@21845@NOP|@NOP@line 21847: past the end of memory
@byte 1,2,3,4, 5,6,7,8 ; eight bytes|@8192@|@NOP@line 8194: past the end of memory
word 1,2|org 65535|@@0@byte 0|@NOP@line 4: past the end of memory
BRK:BRK|org 65532|@@0@word BRK,1||@byte 1@line 5: past the end of memory
byte 1@,1@65535@@,1@line 1: past the end of memory
byte 1@,1@65535@@,q@line 1: past the end of memory
byte 1@,1@65535@@,65536@line 1: out of range
word <1@, >1@32767@@,@line 1: syntax
";

// Adds a piece of a source text, in which `|` ends a line.
fn add(text: &mut Vec<u8>, piece: &str) -> Result<(), AllocError> {
    for byte in piece.as_bytes() {
        text.push(if *byte == b'|' { b'\n' } else { *byte })?;
    }
    Ok(())
}

// Returns true if the list is the bytes, each after a space.
fn are_listed(bytes: &[u8], list: &[u8]) -> bool {
    let mut list = list;
    for byte in bytes {
        let [b' ', high, low, rest @ ..] = list else {
            return false;
        };
        if [*high, *low] != two_digits(*byte) {
            return false;
        }
        list = rest;
    }
    list.is_empty()
}

// Returns true if an image has the origin and the bytes.
fn is_image(image: &Image, want: &[u8]) -> bool {
    let [a, b, c, d, list @ ..] = want else {
        return false;
    };
    ([*a, *b, *c, *d] == four_digits(image.origin)) & are_listed(&image.bytes, list)
}

// Returns true if the text of an error is `want`.
fn is_told(alloc: Global, error: AsmError, want: &str) -> Result<bool, Fail> {
    Ok(format!(in alloc; "{error}")?.as_str() == want)
}

// Returns true if the result of a source text is `want`.
fn comes_to(alloc: Global, part: Part, text: &[u8], want: &str) -> Result<bool, Fail> {
    match assemble(alloc, part, text) {
        Ok(image) => Ok(is_image(&image, want.as_bytes())),
        Err(error) => is_told(alloc, error, want),
    }
}

// Returns true if a text has the result before it.
fn holds(alloc: Global, case: &str, source: &str) -> Result<bool, Fail> {
    let (part, want) = case.split_once(' ').unwrap_or((case, ""));
    let part = if part == "65C02" { Cmos } else { Nmos };
    let mut text = Vec::new(alloc);
    add(&mut text, source)?;
    comes_to(alloc, part, &text, want)
}

#[test]
fn texts_come_to_their_bytes_or_to_their_first_offending_line(rt: HostRuntime) -> Result<(), Fail> {
    let mut case = String::new(rt.alloc());
    for line in TEXTS.lines() {
        if let Some((head, source)) = line.split_once('@') {
            if !head.is_empty() {
                case = String::from_str(rt.alloc(), head)?;
            }
            let holds = holds(rt.alloc(), case.as_str(), source)?;
            assert!(rt; holds, "{case}@{source}");
        } else {
            assert!(rt; line.starts_with('#'), "{line}");
        }
    }
    Ok(())
}

// Returns an operand of a mode in a source text, and its bytes at address 0.
fn operand_of(mode: Mode) -> (&'static str, &'static [u8]) {
    match mode {
        Mode::Imp | Mode::Spare => ("", &[]),
        Mode::Acc => (" A", &[]),
        Mode::Imm => (" #&12", &[0x12]),
        Mode::Zp => (" &12", &[0x12]),
        Mode::ZpX => (" &12,X", &[0x12]),
        Mode::ZpY => (" &12,Y", &[0x12]),
        Mode::Abs => (" &1234", &[0x34, 0x12]),
        Mode::AbsX => (" &1234,X", &[0x34, 0x12]),
        Mode::AbsY => (" &1234,Y", &[0x34, 0x12]),
        Mode::IndX => (" (&12,X)", &[0x12]),
        Mode::IndY => (" (&12),Y", &[0x12]),
        Mode::IndZp => (" (&12)", &[0x12]),
        Mode::Rel => (" &0012", &[0x10]),
        Mode::Ind => (" (&1234)", &[0x34, 0x12]),
        Mode::IndAbsX => (" (&1234,X)", &[0x34, 0x12]),
    }
}

// Returns true if the image is these bytes only.
fn are(image: &Image, op: u8, operand: &[u8]) -> bool {
    match image.bytes.as_slice() {
        [first, rest @ ..] => (*first == op) & (rest == operand),
        [] => false,
    }
}

// Returns true if a row's form has its opcode.
fn has_opcode(alloc: Global, part: Part, op: u8, row: Row) -> Result<bool, Fail> {
    let (operand, bytes) = operand_of(row.mode);
    let mut text = Vec::from_array(alloc, row.mnemonic.name())?;
    text.extend_from_slice(operand.as_bytes())?;
    let image = assemble(alloc, part, &text)?;
    Ok(are(&image, op, bytes))
}

#[test]
fn each_documented_form_has_its_opcode(rt: HostRuntime) -> Result<(), Fail> {
    for part in [Nmos, Cmos] {
        for op in 0..=255u8 {
            if let Some(row) = documented(part, op) {
                let has_opcode = has_opcode(rt.alloc(), part, op, row)?;
                assert!(rt; has_opcode, "{part:?} {op:02X}");
            }
        }
    }
    Ok(())
}

// Returns true if a text fills the memory.
fn fills(alloc: Global, part: Part, text: &[u8]) -> Result<bool, Fail> {
    let image = assemble(alloc, part, text)?;
    Ok(image.bytes.len() == 65_536)
}

// Returns true if the text of a line fills the memory, and has the line's result with a little
// more.
fn fills_it(alloc: Global, line: &str) -> Result<bool, Fail> {
    let mut fields = line.split('@');
    let mut text = Vec::new(alloc);
    add(&mut text, fields.next().unwrap_or(""))?;
    let piece = fields.next().unwrap_or("");
    for _ in 0..fields.next().unwrap_or("").parse().unwrap_or(0u32) {
        add(&mut text, piece)?;
    }
    add(&mut text, fields.next().unwrap_or(""))?;
    let fills = fills(alloc, Nmos, &text)? & fills(alloc, Cmos, &text)?;
    add(&mut text, fields.next().unwrap_or(""))?;
    let want = fields.next().unwrap_or("");
    Ok(fills & comes_to(alloc, Nmos, &text, want)? & comes_to(alloc, Cmos, &text, want)?)
}

#[test]
fn images_fill_the_memory_and_no_more(rt: HostRuntime) -> Result<(), Fail> {
    for line in FULL.lines() {
        let fills = fills_it(rt.alloc(), line)?;
        assert!(rt; fills, "{line}");
    }
    Ok(())
}

const REFUSALS: [(AsmError, &str); 7] = [
    (AsmError::Syntax { line: 1 }, "line 1: syntax"),
    (
        AsmError::NoSuchForm { line: 20 },
        "line 20: no such form of the instruction",
    ),
    (AsmError::UnknownLabel { line: 3 }, "line 3: unknown label"),
    (
        AsmError::Repeated { line: 400 },
        "line 400: the label stands at an earlier line",
    ),
    (AsmError::OutOfRange { line: 5 }, "line 5: out of range"),
    (
        AsmError::TooLong { line: 65_536 },
        "line 65536: past the end of memory",
    ),
    (AsmError::NoMemory, "no memory"),
];

#[test]
fn each_refusal_of_a_source_text_has_a_text(rt: HostRuntime) -> Result<(), Fail> {
    for (error, want) in &REFUSALS {
        let is_told = is_told(rt.alloc(), *error, *want)?;
        assert!(rt; is_told, "{want}");
    }
    Ok(())
}
