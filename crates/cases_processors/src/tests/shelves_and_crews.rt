//! The answers of the memory forms call by call, the working folder, crews, and the texts of the
//! errors.
ghost use Rattle.std.specs.Prelude.{◌≡◌, ◌+◌, ◌<◌, IfOk, string_bytes};
ghost use Rattle.beeb_files.specs.Memory.{NamesDiffer};

use beeb_files::{
    Crew, DirOutlet, DirShelf, FailCrew, Job, MemOutlet, MemShelf, Outlet, PutError, Shelf,
    ShelfError, ThreadCrew,
};
use std::alloc::{AllocError, Global};
use std::fs;
use std::sync::Wait;
use std::test::Fail;

fn entry(alloc: Global, name: &str, bytes: &[u8]) -> Result<(String, Vec<u8>), AllocError>
    ensures { IfOk result (λ e. string_bytes e.0 ≡ name.now) }
{
    Ok((String::from_str(alloc, name)?, bytes.to_vec(alloc)?))
}

fn two_files(alloc: Global) -> Result<Vec<(String, Vec<u8>)>, AllocError>
    ensures { IfOk result (λ v. NamesDiffer v.items) }
{
    let program = entry(alloc, "PROGRAM", b"10 PRINT")?;
    let empty = entry(alloc, "EMPTY", b"")?;
    Ok(vec![in alloc; program, empty]?)
}

// Returns the answer in a form that can be compared with a literal.
fn in_slices(answer: &Result<Vec<u8>, ShelfError>) -> Result<&[u8], ShelfError> {
    match answer {
        Ok(bytes) => Ok(bytes.as_slice()),
        Err(error) => Err(*error),
    }
}

// A call of a shelf: the name, the largest allowed number of bytes, and the answer.
type Call = (&'static str, u64, Result<&'static [u8], ShelfError>);

fn is_answer<S: Shelf>(shelf: &mut S, alloc: Global, (name, cap, want): Call) -> bool {
    in_slices(&shelf.get(alloc, name, cap)) == want
}

// Returns the number of successive calls, from the first on, that have their answers.
fn answers<S: Shelf>(shelf: &mut S, alloc: Global, calls: &[Call]) -> usize {
    for (n, call) in calls.iter().enumerate() {
        if !is_answer(shelf, alloc, *call) {
            return n;
        }
    }
    calls.len()
}

// Calls 3 and 4 count too, so that call 6 is the one that fails.
const GETS: [Call; 9] = [
    ("PROGRAM", 8, Ok(b"10 PRINT")),
    ("PROGRAM", 8, Err(ShelfError::Failed)),
    ("PROGRAM", 8, Ok(b"10 PRINT")),
    ("PROGRAM", 7, Err(ShelfError::TooLong { cap: 7 })),
    ("ABSENT", 100, Err(ShelfError::Failed)),
    ("EMPTY", 0, Ok(b"")),
    ("EMPTY", 0, Err(ShelfError::Failed)),
    ("PROGRAM", 7, Err(ShelfError::Failed)),
    ("PROGRAM", u64::MAX, Ok(b"10 PRINT")),
];

#[test]
fn a_memory_shelf_fails_at_the_listed_calls(rt: HostRuntime) -> Result<(), Fail> {
    let alloc = rt.alloc();
    let failing = vec![in alloc; 1, 6, 7]?;
    let mut shelf = MemShelf::make(two_files(alloc)?, failing);
    assert_eq!(rt; answers(&mut shelf, alloc, &GETS), 9);
    Ok(())
}

// The name that is put, or `None` for bytes that are said; the bytes; the answer; and then the
// bytes of OUT and the bytes said.
type Put = (
    Option<&'static str>,
    &'static [u8],
    Result<(), PutError>,
    &'static [u8],
    &'static [u8],
);

const PUTS: [Put; 7] = [
    (Some("OUT"), b"one", Ok(()), b"one", b""),
    (Some("OUT"), b"two", Err(PutError::Failed), b"one", b""),
    (None, b"good ", Ok(()), b"one", b"good "),
    (Some("OUT"), b"three", Ok(()), b"three", b"good "),
    (None, b"lost", Err(PutError::Failed), b"three", b"good "),
    (None, b"day", Ok(()), b"three", b"good day"),
    (Some("NEXT"), b"", Ok(()), b"three", b"good day"),
];

fn puts<O: Outlet>(outlet: &mut O, name: Option<&str>, bytes: &[u8]) -> Result<(), PutError> {
    match name {
        Some(name) => outlet.put(name, bytes),
        None => outlet.say(bytes),
    }
}

// Returns true if OUT has these bytes, and these were said.
fn holds(outlet: &MemOutlet, held: &[u8], said: &[u8]) -> bool {
    (outlet.file("OUT") == Some(held)) & (outlet.said() == said)
}

#[test]
fn a_memory_outlet_fails_at_the_listed_calls(rt: HostRuntime) -> Result<(), Fail> {
    let alloc = rt.alloc();
    let failing = vec![in alloc; 1, 4]?;
    let mut outlet = MemOutlet::make(alloc, failing);
    for (name, bytes, want, held, said) in &PUTS {
        let is_answer = puts(&mut outlet, *name, *bytes) == *want;
        assert!(rt; is_answer & holds(&outlet, *held, *said), "{name:?}");
    }
    assert!(rt; outlet.file("NEXT") == Some(b"".as_slice()));
    assert!(rt; outlet.file("ABSENT").is_none());
    Ok(())
}

// The file that the test writes in its working folder, and removes.
const WRITTEN: &str = "written_by_a_test_of_beeb_files";

const READS: [Call; 4] = [
    (WRITTEN, 8, Ok(b"10 PRINT")),
    (WRITTEN, u64::MAX, Ok(b"10 PRINT")),
    (WRITTEN, 7, Err(ShelfError::TooLong { cap: 7 })),
    ("ABSENT", 100, Err(ShelfError::Failed)),
];

#[test]
fn the_working_folder_gives_back_what_was_put(rt: HostRuntime) -> Result<(), Fail> {
    let alloc = rt.alloc();
    let mut outlet = DirOutlet::make(&rt);
    let put = [
        outlet.put(WRITTEN, b"a longer text"),
        outlet.put(WRITTEN, b"10 PRINT"),
        outlet.put("no such folder/file", b"lost"),
        outlet.say(b"said\n"),
    ];
    assert!(rt; put == [Ok(()), Ok(()), Err(PutError::Failed), Ok(())]);
    let mut shelf = DirShelf::make(&rt);
    assert_eq!(rt; answers(&mut shelf, alloc, &READS), 4);
    fs::remove_file(&rt, WRITTEN)?;
    Ok(())
}

// Adds one.
#[derive(Drop)]
struct Next(u8);

impl Job for Next {
    type Done = u8;

    ghost may_work = { λ j. j.0 < 255 };

    ghost gives = { λ j r. r ≡ j.0 + 1 };

    fn work<R: Wait>(self, _rt: &R) -> u8 {
        self.0 + 1
    }
}

#[test]
fn a_crew_works_both_jobs_or_counts_a_fault(rt: HostRuntime) {
    let mut threads = ThreadCrew::make();
    let mut refusing = FailCrew::make();
    for k in 0..3u8 {
        assert_eq!(rt;
            threads.pair(&rt, Next(k), Next(k + 7)),
            Some((k + 1, k + 8))
        );
        assert_eq!(rt; (threads.faults(), threads.pairs()), (0, k as u64 + 1));
        assert_eq!(rt; refusing.pair(&rt, Next(k), Next(k + 7)), None);
        assert_eq!(rt; (refusing.faults(), refusing.pairs()), (k as u64 + 1, 0));
    }
}

#[test]
fn each_refusal_of_a_shelf_or_an_outlet_has_a_text(rt: HostRuntime) -> Result<(), Fail> {
    let shelf = [
        (ShelfError::Failed, "cannot read the file"),
        (ShelfError::TooLong { cap: 32768 }, "more than 32768 bytes"),
        (ShelfError::NoMemory, "no memory"),
    ];
    for (error, want) in shelf {
        let text = format!(in rt.alloc(); "{error}")?;
        assert!(rt; text.as_str() == want, "{want}");
    }
    for (error, want) in [
        (PutError::Failed, "cannot write"),
        (PutError::NoMemory, "no memory"),
    ] {
        let text = format!(in rt.alloc(); "{error}")?;
        assert!(rt; text.as_str() == want, "{want}");
    }
    Ok(())
}
