//! Scenes: texts with the files on the shelf, the words to carry out, and the expected results.
//!
//! A line is a step. The bytes that it names are in the lines below it:
//!
//! - `| TEXT` is the text and a line feed, and `+ TEXT` the text alone,
//! - `x 4C 00..FF` are bytes, here 4C and all from 00 to FF, and `* N LINE` is one of these N
//!   times.
//!
//! Lines that are done for each item of a list are written out first (`sheet.rt`).
//!
//! The steps:
//!
//! - `# TITLE` begins a scene: the shelf is empty, and no call fails. `## MORE` continues the
//!   scene; its text is not used.
//! - `t`: the files `t`, `t.dsd` and `game.ssd` have these bytes, and with `keys` the file `keys`.
//!   `os`, `lang` and `dfs`, and `tube`: the files of these names are the images of these source
//!   texts, for the 6502 and the 65C02; with a name, as `os letters`, of the program of that name
//!   (`programs.rt`). `ticks A, B`: the file `t` is a trace of these accesses, one at each tick
//!   from 0, or as `2A H R 0 40` each after its tick.
//! - `plugs NAME..`: these devices are passed in: `card`, `latch`, a `counter`, a `mute`, or
//!   `none`. Without this step they are `card` and `latch`.
//! - `fails N,.. M,..`: these calls of the shelf and these of the outlet fail; `-` is none.
//! - `$ WORDS`: the words are carried out; `''` is an empty word. `run ..`: the step itself is
//!   carried out, in two threads. `top WORDS`: the words are carried out in one thread, by the call
//!   that has a crew; `alone WORDS` uses a crew that starts no thread, and `slow WORDS` one that
//!   begins its second job late. In words `%` is `--os os --tube tube`, or the words of a step
//!   `with WORDS`.
//! - `= STATUS`: the words ended with this number and text, the kind of the offence if there is
//!   one, and what was said, after a colon or below. `! WORDS` carries out words that are outside
//!   the grammar.
//! - `file NAME`: the file was written with these bytes. `none NAME..`: these were not written.
//!   `line NAME TEXT`: this is one of its lines. `size NAME N` is its length, and `at NAME ADDRESS
//!   BYTES` are its bytes from an address on.
//! - `trace`: the file `o.trace` becomes the file `t`, the chip gives all its answers, and the
//!   outputs are kept. `keep`: the outputs are kept, and nothing else happens. `same NAME..`: these
//!   files are the same as in the kept outputs. `left N`: the first N of the names `o.report o.host
//!   o.para o.trace w s`, or of those of a step `outputs NAME..`, are the same too, and the others
//!   were not written. `take NAME`: the file becomes the file `t`, and `back NAME`: the file of the
//!   kept outputs does. `poke AT BYTE`: the byte at this place of `t` is replaced; `cut N`: `t` has
//!   only its first N bytes.
ghost use Rattle.std.specs.Prelude.{◌≡◌, IfOk, string_bytes};

use super::guests::devices;
use super::programs::program;
use super::runs::SlowCrew;
use super::sheet::written_out;
use asm65::assemble;
use beeb_files::{Crew, FailCrew, MemOutlet, MemShelf, ThreadCrew};
use bus_plug::BusDevice;
use cmd_top::{Status, plain, top};
use op_table::Part;
use std::alloc::{AllocError, Global};
use std::process::Abort;
use std::sync::Wait;
use std::test::Fail;
use std::thread::Threads;

/// The files on the shelf, the calls that fail, and the result of the last words.
#[derive(Drop)]
struct Scene {
    alloc: Global,
    title: Vec<u8>,
    t: Vec<u8>,
    os: Vec<u8>,
    tube: Vec<u8>,
    lang: Vec<u8>,
    dfs: Vec<u8>,
    keys: Vec<u8>,
    plugs: Vec<u8>,
    with: Vec<u8>,
    outputs: Vec<u8>,
    get_fails: Vec<u32>,
    put_fails: Vec<u32>,
    told: Vec<u8>,
    out: MemOutlet,
    kept: MemOutlet,
}

/// Stops the test at the first step of the scenes that does not hold.
pub(crate) fn all_hold<R: Threads + Wait + Sync + Abort>(
    rt: &R,
    alloc: Global,
    scenes: &str,
) -> Result<(), Fail> {
    let scenes = written_out(alloc, scenes)?;
    let wrong = first_wrong(rt, alloc, scenes.as_str())?;
    assert!(rt; wrong.is_none(), "{}", wrong.unwrap_or(String::new(alloc)));
    Ok(())
}

// Returns the title of the first scene with a step that does not hold, the step's line in the
// scenes, the step, and the result of the last words.
fn first_wrong<R: Threads + Wait + Sync>(
    rt: &R,
    alloc: Global,
    scenes: &str,
) -> Result<Option<String>, Fail> {
    let mut scene = Scene::empty(alloc);
    let mut step = "";
    let mut bytes = Vec::new(alloc);
    // The number of lines read, and the number of those up to the step.
    let mut read = 0u32;
    let mut at = 0u32;
    for line in scenes.lines() {
        read = read.wrapping_add(1);
        if is_more(line) {
            add(alloc, &mut bytes, line)?;
        } else {
            if !scene.holds(rt, step, &bytes)? {
                return scene.tell(step, at);
            }
            step = line;
            at = read;
            bytes.clear();
        }
    }
    if scene.holds(rt, step, &bytes)? {
        Ok(None)
    } else {
        scene.tell(step, at)
    }
}

// Returns true if the line belongs to the step above it.
fn is_more(line: &str) -> bool {
    matches!(line.as_bytes().first(), Some(b'|' | b'+' | b'x' | b'*'))
}

// Adds the bytes of a line below a step.
fn add(alloc: Global, bytes: &mut Vec<u8>, line: &str) -> Result<(), Fail> {
    let (mark, rest) = line.split_once(' ').unwrap_or((line, ""));
    if mark != "*" {
        return add_once(bytes, mark, rest);
    }
    let (count, line) = rest.split_once(' ').unwrap_or((rest, ""));
    let (mark, rest) = line.split_once(' ').unwrap_or((line, ""));
    let mut once = Vec::new(alloc);
    add_once(&mut once, mark, rest)?;
    for _ in 0..number(count) {
        bytes.extend_from_slice(&once)?;
    }
    Ok(())
}

fn add_once(bytes: &mut Vec<u8>, mark: &str, rest: &str) -> Result<(), Fail> {
    if mark == "x" {
        for row in rest.split(' ') {
            let (first, last) = row.split_once("..").unwrap_or((row, row));
            add_row(bytes, hex(first), hex(last))?;
        }
    } else {
        bytes.extend_from_slice(rest.as_bytes())?;
        if mark == "|" {
            bytes.push(b'\n')?;
        }
    }
    Ok(())
}

// Adds the bytes from the first to the last, which may be the lower.
fn add_row(bytes: &mut Vec<u8>, first: u32, last: u32) -> Result<(), AllocError> {
    for more in 0..=last.saturating_sub(first) {
        bytes.push((first.wrapping_add(more) % 256) as u8)?;
    }
    for less in 1..=first.saturating_sub(last) {
        bytes.push((first.wrapping_sub(less) % 256) as u8)?;
    }
    Ok(())
}

fn number(digits: &str) -> u32 {
    digits.parse().unwrap_or(0)
}

fn hex(digits: &str) -> u32 {
    u32::from_str_radix(digits, 16).unwrap_or(0)
}

impl Scene {
    fn empty(alloc: Global) -> Scene {
        Scene {
            alloc,
            title: Vec::new(alloc),
            t: Vec::new(alloc),
            os: Vec::new(alloc),
            tube: Vec::new(alloc),
            lang: Vec::new(alloc),
            dfs: Vec::new(alloc),
            keys: Vec::new(alloc),
            plugs: Vec::new(alloc),
            with: Vec::new(alloc),
            outputs: Vec::new(alloc),
            get_fails: Vec::new(alloc),
            put_fails: Vec::new(alloc),
            told: Vec::new(alloc),
            out: MemOutlet::make(alloc, Vec::new(alloc)),
            kept: MemOutlet::make(alloc, Vec::new(alloc)),
        }
    }

    fn tell(&self, step: &str, at: u32) -> Result<Option<String>, Fail> {
        let (title, told) = (text_of(&self.title), text_of(&self.told));
        Ok(Some(format!(in self.alloc; "{title} Line {at}: {step} .. {told}")?))
    }

    // Does a step with the bytes below it. Returns true if it holds.
    fn holds<R: Threads + Wait + Sync>(
        &mut self,
        rt: &R,
        step: &str,
        bytes: &[u8],
    ) -> Result<bool, Fail> {
        let (word, rest) = step.split_once(' ').unwrap_or((step, ""));
        match word {
            "" | "#" | "##" | "ticks" | "fails" | "take" | "back" | "poke" | "cut" => {
                self.lay(word, rest)
            }
            "plugs" | "with" | "outputs" => self.note(word, rest),
            "os" | "tube" if !rest.is_empty() => {
                self.lay_file(word, program(word, rest).as_bytes())
            }
            "t" | "keys" | "os" | "lang" | "dfs" | "tube" => self.lay_file(word, bytes),
            "run" => {
                let mut crew = ThreadCrew::make();
                self.share(rt, step, &mut crew)?;
                Ok(crew.pairs() == 1 || self.told.as_slice() != b"0".as_slice())
            }
            "top" => {
                let mut crew = ThreadCrew::make();
                self.share(rt, rest, &mut crew)?;
                Ok(crew.pairs() == 0)
            }
            "alone" => {
                let mut crew = FailCrew::make();
                self.share(rt, rest, &mut crew)?;
                Ok((crew.faults() == 1) == rest.starts_with("run "))
            }
            "slow" => {
                let mut crew = SlowCrew::make();
                self.share(rt, rest, &mut crew)?;
                Ok(crew.waited())
            }
            "$" | "!" | "trace" | "keep" => self.act(word, rest),
            "none" | "same" => self.are_left(word, rest),
            "left" => self.first_are_left(number(rest)),
            _ => self.is_left(word, rest, bytes),
        }
    }

    // Sets the shelf's files or the calls that fail.
    fn lay(&mut self, word: &str, rest: &str) -> Result<bool, Fail> {
        let alloc = self.alloc;
        match word {
            "#" => {
                *self = Scene::empty(alloc);
                self.title = rest.as_bytes().to_vec(alloc)?;
            }
            "ticks" => self.t = trace(alloc, rest)?,
            "take" => self.t = self.out.file(rest).unwrap_or(b"nothing").to_vec(alloc)?,
            "back" => self.t = self.kept.file(rest).unwrap_or(b"nothing").to_vec(alloc)?,
            "poke" => {
                let (at, byte) = rest.split_once(' ').unwrap_or((rest, ""));
                if let Some(held) = self.t.get_mut(number(at) as usize) {
                    *held = (hex(byte) % 256) as u8;
                }
            }
            "cut" => self.t.truncate(number(rest) as usize),
            "fails" => {
                let (get, put) = rest.split_once(' ').unwrap_or((rest, ""));
                self.get_fails = calls_of(alloc, get)?;
                self.put_fails = calls_of(alloc, put)?;
            }
            _ => {}
        }
        Ok(true)
    }

    // Notes a setting of the following steps.
    fn note(&mut self, word: &str, rest: &str) -> Result<bool, Fail> {
        let said = rest.as_bytes().to_vec(self.alloc)?;
        match word {
            "plugs" => self.plugs = said,
            "with" => self.with = said,
            _ => self.outputs = said,
        }
        Ok(true)
    }

    fn lay_file(&mut self, name: &str, bytes: &[u8]) -> Result<bool, Fail> {
        let alloc = self.alloc;
        match name {
            "t" => self.t = bytes.to_vec(alloc)?,
            "keys" => self.keys = bytes.to_vec(alloc)?,
            "tube" => self.tube = assemble(alloc, Part::Cmos, bytes)?.bytes,
            "os" => self.os = assemble(alloc, Part::Nmos, bytes)?.bytes,
            "lang" => self.lang = assemble(alloc, Part::Nmos, bytes)?.bytes,
            _ => self.dfs = assemble(alloc, Part::Nmos, bytes)?.bytes,
        }
        Ok(true)
    }

    fn act(&mut self, word: &str, rest: &str) -> Result<bool, Fail> {
        match word {
            "$" => {
                self.carry_out(rest)?;
                Ok(true)
            }
            "!" => {
                self.carry_out(rest)?;
                Ok(self.told.as_slice() == b"1 usage".as_slice())
            }
            "keep" => {
                std::mem::swap(&mut self.kept, &mut self.out);
                Ok(true)
            }
            _ => self.follow(),
        }
    }

    fn carry_out(&mut self, words: &str) -> Result<(), Fail> {
        let alloc = self.alloc;
        let mut shelf = self.shelf()?;
        let mut out = MemOutlet::make(alloc, self.put_fails.to_vec(alloc)?);
        let words = self.words(words)?;
        let status = plain(alloc, &words, &mut shelf, &mut out, self.devices()?);
        self.told = told(alloc, &status, out.said())?;
        self.out = out;
        Ok(())
    }

    // Carries out the words by the call that has a crew.
    fn share<C: Crew, R: Threads + Wait + Sync>(
        &mut self,
        rt: &R,
        words: &str,
        crew: &mut C,
    ) -> Result<(), Fail> {
        let alloc = self.alloc;
        let mut shelf = self.shelf()?;
        let mut out = MemOutlet::make(alloc, self.put_fails.to_vec(alloc)?);
        let words = self.words(words)?;
        let plugs = self.devices()?;
        let status = top(rt, alloc, &words, &mut shelf, &mut out, crew, plugs);
        self.told = told(alloc, &status, out.said())?;
        self.out = out;
        Ok(())
    }

    fn words(&self, row: &str) -> Result<Vec<String>, AllocError> {
        let with = said_or(&self.with, "--os os --tube tube");
        let row = row.replace(self.alloc, "%", with)?;
        words_of(self.alloc, row.as_str())
    }

    // Makes the devices that are passed in: the program's, if no others are named.
    fn devices(&self) -> Result<Vec<Box<dyn BusDevice + Send>>, Fail> {
        devices(self.alloc, said_or(&self.plugs, "card latch"))
    }

    fn shelf(&self) -> Result<MemShelf, AllocError> {
        let alloc = self.alloc;
        let t = entry(alloc, "t", &self.t)?;
        let dsd = entry(alloc, "t.dsd", &self.t)?;
        let ssd = entry(alloc, "game.ssd", &self.t)?;
        let os = entry(alloc, "os", &self.os)?;
        let tube = entry(alloc, "tube", &self.tube)?;
        let lang = entry(alloc, "lang", &self.lang)?;
        let dfs = entry(alloc, "dfs", &self.dfs)?;
        let keys = entry(alloc, "keys", &self.keys)?;
        let files = vec![in alloc; t, dsd, ssd, os, tube, lang, dfs, keys]?;
        Ok(MemShelf::make(files, self.get_fails.to_vec(alloc)?))
    }

    // Returns true if the chip gives the trace of a run, line by line. The trace and the other
    // outputs are kept.
    fn follow(&mut self) -> Result<bool, Fail> {
        let alloc = self.alloc;
        let mut run = MemOutlet::make(alloc, Vec::new(alloc));
        std::mem::swap(&mut run, &mut self.out);
        self.t = run.file("o.trace").unwrap_or(b"nothing").to_vec(alloc)?;
        self.kept = run;
        let lines = entries_in(text_of(&self.t));
        self.carry_out("check t")?;
        let wanted = format!(in alloc; "0: ok {lines}")?;
        Ok(self.told.as_slice() == wanted.as_bytes())
    }

    // Returns true if the last words ended with this status, and said this.
    fn is_told(&self, status: &str, said: &[u8]) -> bool {
        match self.told.strip_prefix(status.as_bytes()) {
            None => false,
            Some(rest) if said.is_empty() => rest.is_empty(),
            Some(rest) => rest.strip_prefix(b": ") == said.strip_suffix(b"\n"),
        }
    }

    // Returns true if each of these files was not written, or is the same as in the kept outputs.
    fn are_left(&self, word: &str, names: &str) -> Result<bool, Fail> {
        for name in names.split(' ') {
            if !self.is_left(word, name, &[])? {
                return Ok(false);
            }
        }
        Ok(true)
    }

    // Returns true if the first `count` outputs are the same as the kept ones, and the others were
    // not written.
    fn first_are_left(&self, count: u32) -> Result<bool, Fail> {
        let names = said_or(&self.outputs, "o.report o.host o.para o.trace w s");
        for (i, name) in names.split(' ').enumerate() {
            let word = if i < count as usize { "same" } else { "none" };
            if !self.is_left(word, name, &[])? {
                return Ok(false);
            }
        }
        Ok(true)
    }

    // Returns true if the result and the outputs of the last words are as a step says.
    fn is_left(&self, word: &str, rest: &str, bytes: &[u8]) -> Result<bool, Fail> {
        if word == "=" {
            return Ok(self.is_told(rest, bytes));
        }
        let (name, rest) = rest.split_once(' ').unwrap_or((rest, ""));
        let Some(file) = self.out.file(name) else {
            return Ok(word == "none");
        };
        Ok(match word {
            "file" => file == bytes,
            "line" => has_line(file, rest),
            "size" => file.len() as u64 == u64::from(number(rest)),
            "at" => has_bytes(file, rest),
            "same" => self.kept.file(name) == Some(file),
            _ => false,
        })
    }
}

// Makes a file on the shelf.
fn entry(alloc: Global, name: &str, bytes: &[u8]) -> Result<(String, Vec<u8>), AllocError>
    ensures { IfOk result (λ e. string_bytes e.0 ≡ name.now) }
{
    Ok((String::from_str(alloc, name)?, bytes.to_vec(alloc)?))
}

// Returns the file as a text, or a text without lines if it is none.
fn text_of(file: &[u8]) -> &str {
    std::str::from_utf8(file).unwrap_or("")
}

// Returns what a step said, or `usual` if none did.
fn said_or<'a>(said: &'a [u8], usual: &'a str) -> &'a str {
    let said = text_of(said);
    if said.is_empty() { usual } else { said }
}

// Returns the number of a trace's lines that are entries: all but the line of a second processor at
// 4 MHz.
fn entries_in(trace: &str) -> u32 {
    let mut count = 0u32;
    for line in trace.lines() {
        if line != "T2" {
            count = count.wrapping_add(1);
        }
    }
    count
}

fn has_line(file: &[u8], line: &str) -> bool {
    for it in text_of(file).lines() {
        if it == line {
            return true;
        }
    }
    false
}

// Returns true if the file has the row's bytes from its address on.
fn has_bytes(file: &[u8], row: &str) -> bool {
    let (address, bytes) = row.split_once(' ').unwrap_or((row, ""));
    let mut at = hex(address) as usize;
    for byte in bytes.split(' ') {
        match file.get(at) {
            Some(held) if u32::from(*held) == hex(byte) => at = at.saturating_add(1),
            _ => return false,
        }
    }
    true
}

// Returns the text of a trace: accesses separated by commas, each after its tick, or one at each
// tick from 0.
fn trace(alloc: Global, accesses: &str) -> Result<Vec<u8>, AllocError> {
    let mut text = Vec::new(alloc);
    for (tick, access) in accesses.split(", ").enumerate() {
        let (first, rest) = access.split_once(' ').unwrap_or((access, ""));
        let line = match first {
            "H" | "P" => format!(in alloc; "{:010X} {}\n", tick, access)?,
            _ => format!(in alloc; "{:010X} {}\n", hex(first), rest)?,
        };
        text.extend_from_slice(line.as_bytes())?;
    }
    Ok(text)
}

/// Returns the numbers of a list, with commas between them.
pub(crate) fn calls_of(alloc: Global, list: &str) -> Result<Vec<u32>, AllocError> {
    let mut calls = Vec::new(alloc);
    for digits in list.split(',') {
        if let Ok(number) = digits.parse() {
            calls.push(number)?;
        }
    }
    Ok(calls)
}

/// Returns the words of a row.
pub(crate) fn words_of(alloc: Global, row: &str) -> Result<Vec<String>, AllocError> {
    let mut words = Vec::new(alloc);
    if row.is_empty() {
        return Ok(words);
    }
    for word in row.split(' ') {
        let word = if word == "''" { "" } else { word };
        words.push(String::from_str(alloc, word)?)?;
    }
    Ok(words)
}

/// Returns the number and the text of a status, its kind, and what was said.
pub(crate) fn told(alloc: Global, status: &Status, said: &[u8]) -> Result<Vec<u8>, Fail> {
    let mut told = format!(in alloc; "{}", status.number())?.into_bytes();
    let text = status.text(alloc)?;
    if !text.is_empty() {
        told.push(b' ')?;
        told.extend_from_slice(&text)?;
    }
    if let Status::BadScript { kind, .. }
    | Status::BadPoints { kind, .. }
    | Status::BadTrace { kind, .. }
    | Status::BadSource { kind, .. } = status
    {
        told.extend_from_slice(format!(in alloc; " kind {kind}")?.as_bytes())?;
    }
    if !said.is_empty() {
        told.extend_from_slice(b": ")?;
        told.extend_from_slice(said.strip_suffix(b"\n").unwrap_or(b"no line feed"))?;
    }
    Ok(told)
}
