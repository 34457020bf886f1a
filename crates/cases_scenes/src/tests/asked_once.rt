//! The number of requests to a shelf and an outlet.
ghost use Rattle.beeb_files.specs.Folder.{dir_shelf_state, dir_outlet_state};

use super::scene::words_of;
use beeb_files::{Outlet, PutError, Shelf, ShelfError};
use cmd_top::plain;
use std::alloc::{AllocError, Global};
use std::test::Fail;

// A shelf with the same bytes under each name, and the number of requests to it.
#[derive(Drop)]
struct CountingShelf {
    bytes: Vec<u8>,
    asked: u64,
}

impl Shelf for CountingShelf {
    ghost shelf = { λ _. dir_shelf_state 0 };

    fn get(&mut self, alloc: Global, _name: &str, cap: u64) -> Result<Vec<u8>, ShelfError> {
        self.asked = self.asked.saturating_add(1);
        if self.bytes.len() as u64 > cap {
            return Err(ShelfError::TooLong { cap });
        }
        match self.bytes.to_vec(alloc) {
            Ok(bytes) => Ok(bytes),
            Err(_) => Err(ShelfError::NoMemory),
        }
    }
}

// An outlet, and the number of bytes that it took.
#[derive(Drop)]
struct CountingOutlet {
    taken: u64,
}

impl Outlet for CountingOutlet {
    ghost outlet = { λ _. dir_outlet_state 0 };

    fn put(&mut self, _name: &str, bytes: &[u8]) -> Result<(), PutError> {
        self.taken = self.taken.saturating_add(bytes.len() as u64);
        Ok(())
    }

    fn say(&mut self, bytes: &[u8]) -> Result<(), PutError> {
        self.taken = self.taken.saturating_add(bytes.len() as u64);
        Ok(())
    }
}

// The bytes under each name, the words, and then the status, the number of requests to the shelf,
// and the number of bytes that the outlet took.
const ROWS: &str = "\
-check t-0 1 5
NOP-asm 6502 t out-0 1 1
NOP-run 7 demo-1 0 0
-replay para t 7 o --tube rom-3 2 0
-replay host --rom7 a t 7 o --os os --rom0 b-3 4 0
";

// Returns the counts of a command over these bytes.
fn counts(alloc: Global, bytes: &str, words: &str) -> Result<String, AllocError> {
    let bytes = bytes.as_bytes().to_vec(alloc)?;
    let mut shelf = CountingShelf { bytes, asked: 0 };
    let mut out = CountingOutlet { taken: 0 };
    let words = words_of(alloc, words)?;
    let status = plain(alloc, &words, &mut shelf, &mut out, Vec::new(alloc));
    format!(in alloc; "{} {} {}", status.number(), shelf.asked, out.taken)
}

#[test]
fn each_file_is_read_once_and_each_output_written_once(rt: HostRuntime) -> Result<(), Fail> {
    for row in ROWS.lines() {
        let (bytes, rest) = row.split_once('-').unwrap_or(("", ""));
        let (words, wanted) = rest.rsplit_once('-').unwrap_or(("", ""));
        let got = counts(rt.alloc(), bytes, words)?;
        assert!(rt; got.as_str() == wanted, "{row}: {got}");
    }
    Ok(())
}
