//! Machines and buses that a test asks. The functions are generic, since a proof that sees the
//! fields of one follows each of them over each exit.
ghost use Rattle.std.specs.Prelude.{All, IfOk};
ghost use Rattle.tube_trace.specs.Entries.{IsEntry};

use std::alloc::Global;
use std::test::Fail;
use tube_trace::{Entry, read};

// Returns the answer of a new one.
pub(super) fn with_new<T: Drop, R, F: FnOnce(&mut T) -> R + Drop>(
    made: Result<T, Fail>,
    ask: F,
) -> Result<R, Fail>
    requires { F.IsAlwaysCallable ask }
{
    let mut made = made?;
    Ok(ask(&mut made))
}

// Makes two.
pub(super) fn pair<T: Drop, U, F: FnOnce() -> Result<U, Fail> + Drop>(
    made: Result<T, Fail>,
    make_other: F,
) -> Result<(T, U), Fail>
    requires { F.IsAlwaysCallable make_other }
{
    let made = made?;
    Ok((made, make_other()?))
}

// Returns the entries of a trace, in which `;` ends a line and `~` is eight zeros.
pub(super) fn entries_of(alloc: Global, text: &str) -> Result<Vec<Entry>, Fail>
    ensures { IfOk result (λ entries. All IsEntry entries.items) }
{
    let text = text.replace(alloc, "~", "00000000")?;
    let text = text.replace(alloc, ";", "\n")?;
    Ok(read(alloc, text.as_bytes())?.entries)
}
