//! Texts of scripts, in form and out of it.
use beeb_bits::Tick;
use key_script::{Event, Script, ScriptError, What, read};
use std::alloc::Global;
use std::test::Fail;

fn event(tick: u64, what: What) -> Event {
    Event {
        tick: Tick(tick),
        what,
    }
}

fn push(text: &mut Vec<u8>, part: &[u8]) -> Result<(), Fail> {
    for b in part {
        text.push(*b)?;
    }
    Ok(())
}

// Makes a text of shots at tick 7, and a last part.
fn shots(alloc: Global, count: u16, last: &str) -> Result<Vec<u8>, Fail> {
    let mut text = Vec::new(alloc);
    for _ in 0..count {
        push(&mut text, b"at 7 shot\n")?;
    }
    push(&mut text, last.as_bytes())?;
    Ok(text)
}

fn count(outcome: Result<Script, ScriptError>) -> Result<usize, ScriptError> {
    Ok(outcome?.events().len())
}

#[test]
fn a_line_tells_of_one_event(rt: HostRuntime) -> Result<(), Fail> {
    let script = read(
        rt.alloc(),
        b"at 60 down 41\nat 60 up 00\nat 72 shot\nat 75 break\nat 80 adc 0 0000\nat 80 adc 3 FE0A\nat 1073741824 down 7F\n",
    )?;
    let want = [
        event(60, What::Down(0x41)),
        event(60, What::Up(0)),
        event(72, What::Shot),
        event(75, What::Break),
        event(80, What::Level(0, 0)),
        event(80, What::Level(3, 0xfe0a)),
        event(1_073_741_824, What::Down(0x7f)),
    ];
    assert_eq!(rt; script.events().len(), want.len());
    for (event, want) in script.events().iter().zip(&want) {
        assert_eq!(rt; *event, *want);
    }
    Ok(())
}

#[test]
fn a_script_of_no_events_has_every_key_up(rt: HostRuntime) {
    let script = Script::make(Vec::new(rt.alloc()));
    assert!(rt; script.events().is_empty() && !script.is_down(0x41, Tick(1_000)));
}

// A line is a text's result: its number of events, or the line that is out of form or order. After
// `@` comes the text, in which `|` ends a line.
const TEXTS: &str = "\
events 0@
events 1@at 0 shot|
events 2@at 60 shot|at 60 shot|
events 1@at 60 break|
events 3@at 60 break|at 60 break|at 60 break|
order 2@at 60 break|at 59 break|
order 2@at 60 shot|at 59 shot|
# A bad line before the order is broken, behind it, and on the line that breaks it.
bad 1@x|at 60 shot|at 59 shot|
order 2@at 60 shot|at 59 shot|x|
bad 2@at 60 shot|at 59 down 80|
# The last line without its line feed.
bad 1@at 60 shot
bad 2@at 60 shot|at 61 down 41
bad 1@|
bad 2@at 60 shot||
bad 1@at 60 shot\r|
# The tick.
events 1@at 1073741824 shot|
bad 1@at 1073741825 shot|
bad 1@at 99999999999999999999999 shot|
bad 1@at 060 shot|
bad 1@at 00 shot|
bad 1@at -1 shot|
bad 1@at +1 shot|
bad 1@at 6A shot|
bad 1@at  shot|
# The words, and one space between them.
bad 1@at|
bad 1@at 60|
bad 1@at 60 |
bad 1@at  60 shot|
bad 1@ at 60 shot|
bad 1@at 60 shot |
bad 1@at\t60 shot|
bad 1@At 60 shot|
bad 1@at 60 Shot|
bad 1@at 60 shot 41|
bad 1@at 5 break 00|
bad 1@at 5 Break|
bad 1@at 5 break |
bad 1@at 5 breaks|
bad 1@break|
bad 1@at 60 down|
bad 1@at 60 down 41 41|
# The key.
bad 1@at 60 down 80|
bad 1@at 60 up 4a|
bad 1@at 60 up 041|
bad 1@at 60 down 4|
bad 1@at 60 down G1|
# The channel and its level.
events 2@at 60 adc 1 8000|at 60 adc 2 FFFF|
order 2@at 60 adc 1 8000|at 59 adc 1 8000|
bad 1@at 60 adc 4 8000|
bad 1@at 60 adc 01 8000|
bad 1@at 60 adc A 8000|
bad 1@at 60 adc 1 800|
bad 1@at 60 adc 1 08000|
bad 1@at 60 adc 1 80g0|
bad 1@at 60 adc 1 abcd|
bad 1@at 60 adc 1|
bad 1@at 60 adc|
bad 1@at 60 adc 1 8000 |
bad 1@at 60 adc 1 8000 0|
bad 1@at 60 Adc 1 8000|
bad 1@at 60 down 1 8000|
";

fn wanted(outcome: &str) -> Option<Result<usize, ScriptError>> {
    let (kind, n) = outcome.split_once(' ')?;
    match kind {
        "events" => Some(Ok(n.parse().ok()?)),
        "bad" => Some(Err(ScriptError::BadLine {
            line: n.parse().ok()?,
        })),
        _ => Some(Err(ScriptError::BadOrder {
            line: n.parse().ok()?,
        })),
    }
}

#[test]
fn the_first_offending_line_is_told(rt: HostRuntime) -> Result<(), Fail> {
    for line in TEXTS.lines() {
        if let Some((outcome, source)) = line.split_once('@') {
            let mut text = source.as_bytes().to_vec(rt.alloc())?;
            for byte in text.iter_mut() {
                if *byte == b'|' {
                    *byte = b'\n';
                }
            }
            let got = count(read(rt.alloc(), &text));
            assert!(rt; Some(got) == wanted(outcome), "{line}");
        }
    }
    Ok(())
}

#[test]
fn a_script_has_at_most_256_shots(rt: HostRuntime) -> Result<(), Fail> {
    let rows = [
        (256, "", Ok(256)),
        (256, "at 7 down 41\n", Ok(257)),
        // A break is no shot.
        (256, "at 7 break\nat 8 break\n", Ok(258)),
        (
            256,
            "at 8 shot\n",
            Err(ScriptError::TooManyShots { line: 257 }),
        ),
        (258, "x\n", Err(ScriptError::TooManyShots { line: 257 })),
        // Two errors on one line: the order and the form come first.
        (256, "at 6 shot\n", Err(ScriptError::BadOrder { line: 257 })),
        (256, "at 7 shot", Err(ScriptError::BadLine { line: 257 })),
    ];
    for (shot, last, want) in rows {
        let text = shots(rt.alloc(), shot, last)?;
        assert_eq!(rt; count(read(rt.alloc(), &text)), want, "{last}");
    }
    Ok(())
}

#[test]
fn a_key_is_as_its_last_event_makes_it(rt: HostRuntime) -> Result<(), Fail> {
    let script = read(
        rt.alloc(),
        b"at 10 down 41\nat 20 up 41\nat 20 down 42\nat 25 break\nat 30 down 41\nat 30 up 41\nat 40 shot\n",
    )?;
    let rows = [
        (0x41, 9, false),
        (0x41, 10, true),
        (0x41, 19, true),
        (0x41, 20, false),
        (0x42, 19, false),
        (0x42, 20, true),
        (0x41, 30, false),
        (0x42, 1_000, true),
        (0x43, 1_000, false),
    ];
    for (key, t, want) in rows {
        assert_eq!(rt; script.is_down(key, Tick(t)), want, "{key} {t}");
    }
    Ok(())
}

#[test]
fn each_refusal_of_a_script_has_a_text(rt: HostRuntime) -> Result<(), Fail> {
    let rows = [
        (
            ScriptError::BadLine { line: 3 },
            "line 3 is outside the form of a script",
        ),
        (
            ScriptError::BadOrder { line: 4 },
            "line 4 has a tick below that of the line before it",
        ),
        (
            ScriptError::TooManyShots { line: 300 },
            "line 300 has the 257th shot",
        ),
        (ScriptError::NoMemory, "no memory"),
    ];
    for (error, want) in rows {
        let text = format!(in rt.alloc(); "{error}")?;
        assert_eq!(rt; text.as_str(), want);
    }
    Ok(())
}
