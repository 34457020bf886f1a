//! A file that is replaced whole or not at all.
ghost use Rattle.std.specs.Prelude.{◌≡◌, ◌<◌, IsOk, IsErr};

use std::fs::{Metadata, OpenFile, OpenOptions};
use std::io::{ErrorKind, Write};
use std::os::unix::fs::MetadataExt;
use std::rt::Files;
use std::{fs, io};

/// The length of the longest name of a file beside another, in bytes.
const LONGEST: usize = 4_096;

/// The text added to a name for the file beside it, before a digit.
const ADDED: &[u8] = b".new";

/// The number of names beside one that are tried. A run that ends while it writes leaves its file
/// there.
const TRIES: u8 = 10;

// Returns the name with the addition and the digit `n`, in `room`. Returns `None` if it is too
// long.
fn name_beside<'a>(name: &str, n: u8, room: &'a mut [u8; LONGEST]) -> Option<&'a str>
    requires { n < 10 }
{
    let len = name.len();
    if len > LONGEST - 5 {
        return None;
    }
    room[..len].copy_from_slice(name.as_bytes());
    room[len..len + 4].copy_from_slice(ADDED);
    room[len + 4] = b'0' + n;
    str::from_utf8(&room[..len + 5]).ok()
}

// Returns true if the name can be replaced: it does not exist, or is a plain file with one name
// that may be written.
fn may_be_replaced<R: Files>(rt: &R, name: &str, there: &io::Result<Metadata>) -> bool {
    match there {
        Ok(there) => there.is_file()
            && there.nlink() == 1
            && OpenOptions::new().write(true).open(rt, name).is_ok(),
        Err(error) => error.kind() == ErrorKind::NotFound,
    }
}

// Makes a new file with the owner and the permissions of the file to replace. Returns `None` if it
// cannot.
fn make_beside<R: Files>(rt: &R, name: &str, there: Option<&Metadata>) -> Option<R::File> {
    let file = OpenOptions::new()
        .write(true)
        .create_new(true)
        .open(rt, name)
        .ok()?;
    let alike = match there {
        None => true,
        Some(there) => is_owned_alike(&file, there)
            && file.set_permissions(there.permissions()).is_ok(),
    };
    if alike {
        Some(file)
    } else {
        let _ = fs::remove_file(rt, name);
        None
    }
}

fn is_owned_alike<F: OpenFile>(file: &F, there: &Metadata) -> bool {
    match file.metadata() {
        Ok(made) => made.uid() == there.uid() && made.gid() == there.gid(),
        Err(_) => false,
    }
}

// Renames the file beside to the name. `written` is the result of writing it.
fn rename_written<R: Files>(
    rt: &R,
    written: &io::Result<()>,
    beside: &str,
    name: &str,
) -> io::Result<()>
    requires { IsOk written.now }
{
    let _ = written;
    fs::rename(rt, beside, name)
}

// Renames the file beside to the name if it was written. Otherwise returns the error of writing.
fn rename_if_written<R: Files>(
    rt: &R,
    written: io::Result<()>,
    beside: &str,
    name: &str,
) -> io::Result<()>
    ensures done { IsOk result → IsOk written }
    ensures cause { IsErr written → result ≡ written }
{
    if written.is_ok() {
        rename_written(rt, &written, beside, name)
    } else {
        written
    }
}

// Writes the bytes to the file beside, and renames it to the name. If either fails, it removes the
// file beside and leaves the name unchanged.
fn write_and_rename<R: Files>(
    rt: &R,
    mut file: R::File,
    beside: &str,
    name: &str,
    bytes: &[u8],
) -> io::Result<()> {
    let written = file.write_all(bytes);
    let done = rename_if_written(rt, written, beside, name);
    if done.is_err() {
        let _ = fs::remove_file(rt, beside);
    }
    done
}

/// Puts the bytes under the name. The bytes are written to a new file beside it, `NAME.new0` or
/// with the next digit, which is then renamed: the old file stays until all bytes are written. A
/// device, a pipe or a link is written in place. So is a plain file that has several names or
/// beside which no file can be made.
pub(crate) fn write<R: Files>(rt: &R, name: &str, bytes: &[u8]) -> io::Result<()> {
    let there = fs::symlink_metadata(rt, name);
    if may_be_replaced(rt, name, &there) {
        let mut room = [0; LONGEST];
        for n in 0..TRIES {
            let Some(beside) = name_beside(name, n, &mut room) else {
                break;
            };
            if let Some(file) = make_beside(rt, beside, there.as_ref().ok()) {
                return write_and_rename(rt, file, beside, name, bytes);
            }
        }
    }
    fs::write(rt, name, bytes)
}
