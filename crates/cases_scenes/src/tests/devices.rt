//! Devices that are passed in: each is dropped once, for any result of the command, and an access
//! is one call of one of them.
use super::programs::program;
use super::scene::{calls_of, words_of};
use asm65::assemble;
use beeb_bits::NoMemory;
use beeb_files::{Crew, FailCrew, MemOutlet, MemShelf, ThreadCrew};
use bus_plug::BusDevice;
use cmd_top::{plain, top};
use op_table::Part;
use std::alloc::Global;
use std::sync::atomic::{AtomicU64, Ordering};
use std::sync::{Arc, Wait};
use std::test::Fail;
use std::thread::Threads;

// A device that owns no address, and counts its drop.
struct Counting {
    drops: Arc<AtomicU64>,
}

impl Drop for Counting {
    fn drop(self) {
        self.drops.fetch_add(1, Ordering::SeqCst);
        let Counting { drops } = self;
        drop(drops);
    }
}

impl BusDevice for Counting {
    ghost use Rattle.std.specs.Prelude.{[], false};

    ghost plug = { λ _. record {
      rules = record {
        owned = λ s at. false;
        read_answer = λ s at. 0xFF;
        read_next = λ s at. s;
        write_next = λ s at v. s;
        spilled = λ s. [];
      };
      state = [];
    } };

    fn owns(&self, _at: u16) -> bool {
        false
    }

    fn read(&mut self, _at: u16) -> u8 {
        0xff
    }

    fn write(&mut self, _at: u16, _v: u8) {}

    fn spill(&self, _to: &mut Vec<u8>) -> Result<(), NoMemory> {
        Ok(())
    }
}

// Makes two devices that share one count.
fn two(alloc: Global, drops: &Arc<AtomicU64>) -> Result<Vec<Box<dyn BusDevice + Send>>, Fail> {
    let mut plugs: Vec<Box<dyn BusDevice + Send>> = Vec::new(alloc);
    for _ in 0..2 {
        let drops = Arc::try_clone(drops)?;
        plugs.push(Box::new(alloc, Counting { drops })?)?;
    }
    Ok(plugs)
}

// The host reads a status of the Tube.
const OS: &str = "\
org &C000
LDA &FEE0
here: JMP here
org &FFFC
word &C000, 0
";

fn shelf(alloc: Global, os: &str) -> Result<MemShelf, Fail> {
    let os = assemble(alloc, Part::Nmos, os.as_bytes())?.bytes;
    let tube = assemble(alloc, Part::Cmos, program("tube", "loop").as_bytes())?.bytes;
    let wrong = b"0000000000 H R 0 00\n".to_vec(alloc)?;
    let mut files = Vec::new(alloc);
    files.push((String::from_str(alloc, "os")?, os))?;
    files.push((String::from_str(alloc, "tube")?, tube))?;
    files.push((String::from_str(alloc, "wrong")?, wrong))?;
    files.push((String::from_str(alloc, "none")?, Vec::new(alloc)))?;
    Ok(MemShelf::make(files, Vec::new(alloc)))
}

// The status, the call of the outlet that fails, and the words.
const ROWS: &str = "\
0 - solo 100 o --os os --tube tube --plugs 2
0 - solo 100 o --os os --tube tube --plugs 1
0 - solo 100 o --os os --tube tube
8 - replay host none 100 o --os os --plugs 2
0 - replay host none 5 o --os os --plugs 2
0 - replay para none 100 o --tube tube
0 - check none
0 - gen 1
1 -
1 - solo 100 o --os os --plugs 2
2 - solo 100 o --os absent --tube tube --plugs 2
3 - solo 100 o --os tube --tube tube --plugs 2
3 - solo 100 o --os os --tube tube --plugs 2 --font tube
4 - solo 100 o --os os --tube tube --plugs 2 --keys os
4 - replay host tube 100 o --os os --plugs 2
8 - replay host wrong 100 o --os os --plugs 2
5 0 solo 100 o --os os --tube tube --plugs 2
5 4 solo 100 o --os os --tube tube --plugs 2
0 - run 100 o --os os --tube tube --plugs 2
0 - run 100 o --os os --tube tube
2 - run 100 o --os os --tube absent --plugs 2
3 - run 100 o --os os --tube os --plugs 2
5 5 run 100 o --os os --tube tube --plugs 2
";

// Returns a command's status, and the number of drops of a device.
fn counted<C: Crew, R: Threads + Wait + Sync>(
    rt: &R,
    alloc: Global,
    put_fails: &str,
    words: &str,
    crew: &mut C,
) -> Result<(u8, u64), Fail> {
    let drops = Arc::new(alloc, AtomicU64::new(0))?;
    let plugs = two(alloc, &drops)?;
    let mut shelf = shelf(alloc, OS)?;
    let mut out = MemOutlet::make(alloc, calls_of(alloc, put_fails)?);
    let words = words_of(alloc, words)?;
    let status = top(rt, alloc, &words, &mut shelf, &mut out, crew, plugs);
    Ok((status.number(), drops.load(Ordering::SeqCst)))
}

// Does the same by the call that has no crew.
fn counted_alone(alloc: Global, words: &str) -> Result<(u8, u64), Fail> {
    let drops = Arc::new(alloc, AtomicU64::new(0))?;
    let plugs = two(alloc, &drops)?;
    let mut shelf = shelf(alloc, OS)?;
    let mut out = MemOutlet::make(alloc, Vec::new(alloc));
    let words = words_of(alloc, words)?;
    let status = plain(alloc, &words, &mut shelf, &mut out, plugs);
    Ok((status.number(), drops.load(Ordering::SeqCst)))
}

#[test]
fn each_device_is_dropped_once(rt: HostRuntime) -> Result<(), Fail> {
    let alloc = rt.alloc();
    for row in ROWS.lines() {
        let (status, rest) = row.split_once(' ').unwrap_or((row, ""));
        let (fails, words) = rest.split_once(' ').unwrap_or((rest, ""));
        let wanted = (status.parse().unwrap_or(0), 2);
        let mut crew = ThreadCrew::make();
        let got = counted(&rt, alloc, fails, words, &mut crew)?;
        assert!(rt; got == wanted, "{row}");
    }
    let words = "run 100 o --os os --tube tube --plugs 2";
    let got = counted(&rt, alloc, "-", words, &mut FailCrew::make())?;
    assert!(rt; got == (6, 2));
    assert!(rt; counted_alone(alloc, words)? == (1, 2));
    assert!(rt; counted_alone(alloc, "check none")? == (0, 2));
    Ok(())
}

// A device that owns all of FRED and JIM and counts its reads; a write sets the count.
#[derive(Drop)]
struct Counter {
    byte: u8,
}

impl BusDevice for Counter {
    ghost use Rattle.std.specs.Prelude.{[], ◌∷◌, ◌+◌, ◌%◌, true, slice_index};

    ghost plug = { λ c. record {
      rules = record {
        owned = λ s at. true;
        read_answer = λ s at. slice_index s 0;
        read_next = λ s at. (slice_index s 0 + 1) % 256 ∷ [];
        write_next = λ s at v. v ∷ [];
        spilled = λ s. s;
      };
      state = c.byte ∷ [];
    } };

    fn owns(&self, _at: u16) -> bool {
        true
    }

    fn read(&mut self, _at: u16) -> u8 {
        let byte = self.byte;
        self.byte = byte.wrapping_add(1);
        byte
    }

    fn write(&mut self, _at: u16, v: u8) {
        self.byte = v;
    }

    fn spill(&self, to: &mut Vec<u8>) -> Result<(), NoMemory> {
        to.push(self.byte).map_err(|_| NoMemory)
    }
}

// The write takes two cycles, and the read three.
const ACCESSES: &str = "\
org &C000
LDA #&41
STA &FC10
LDA &FD20
STA &70
here: JMP here
org &FFFC
word &C000, 0
";

#[test]
fn a_stretched_access_is_one_call_of_the_first_device(rt: HostRuntime) -> Result<(), Fail> {
    let alloc = rt.alloc();
    let mut plugs: Vec<Box<dyn BusDevice + Send>> = Vec::new(alloc);
    plugs.push(Box::new(alloc, Counter { byte: 5 })?)?;
    plugs.push(Box::new(alloc, Counter { byte: 7 })?)?;
    let mut shelf = shelf(alloc, ACCESSES)?;
    let mut out = MemOutlet::make(alloc, Vec::new(alloc));
    let words = words_of(alloc, "replay host none 100 o --os os --plugs 2")?;
    let status = plain(alloc, &words, &mut shelf, &mut out, plugs);
    assert!(rt; status.number() == 0);
    let byte = |name: &str, at: usize| match out.file(name) {
        Some(bytes) => bytes.get(at).copied(),
        None => None,
    };
    assert!(rt; byte("o.host", 0x70) == Some(0x41));
    assert!(rt; byte("o.plug0", 0) == Some(0x42));
    assert!(rt; byte("o.plug1", 0) == Some(7));
    Ok(())
}
