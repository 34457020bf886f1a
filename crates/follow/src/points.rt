//! A file of addresses.
ghost use Rattle.std.specs.Prelude.{◌≡◌, ◌<◌, ◌∷◌, Ok, Err, Some, IfSome, MatchOption, MatchResult, ◌⊎◌, length, slice_index_or, false};
ghost use Rattle.follow.specs.declared.points.PointsError.TheVariants.{NoMemory};
ghost use Rattle.follow.specs.Points.{BeginsBadly, is_point, point_of, points_of_lines, points};

use digits::{all_hex, first_line, hex_number};
use std::alloc::Global;
use std::marker::Model;
use thiserror::Error;

/// The number of addresses.
const ADDRESSES: usize = 65_536;

/// A set of addresses. Contracts see a Boolean for each of the 65,536 addresses.
#[derive(Drop)]
pub struct Points {
    marked: Vec<bool>,
}

impl Model for Points {
    ghost use Rattle.std.specs.Prelude.{◌≡◌, Bool, List, length};

    ghost Value = { List Bool };

    ghost view = { λ p. p.marked.items };

    ghost invariant = { λ p. length p.marked.items ≡ 65536 };
}

/// The reason why a text is no file of addresses. Lines count from 1.
#[derive(Clone, Copy, Debug, PartialEq, Eq, Error)]
pub enum PointsError {
    #[error("line {line} is outside the form of an address")]
    BadLine { line: u64 },
    #[error("line {line} has no address above that of the line before it")]
    BadOrder { line: u64 },
    #[error("no memory")]
    NoMemory,
}

// Returns the address of a line, or `None` if the line is outside the form.
fn point_of(line: &[u8]) -> Option<u16>
    ensures { result ≡ point_of line.now }
{
    if line.len() == 5 && all_hex(&line[..4]) && line[4] == b'\n' {
        Some(hex_number(&line[..4]) as u16)
    } else {
        None
    }
}

// Splits off the first line of `text`: returns its address and the rest of the text, or `None` if
// the line is outside the form.
fn next_point(text: &[u8]) -> Option<(u16, &[u8])>
    requires { 0 < length text.now }
    ensures lines { MatchOption result (BeginsBadly text.now) (λ next. points_of_lines text.now ≡ Some next.0 ∷ points_of_lines next.1.now) }
    ensures shorter { IfSome result (λ next. length next.1.now < length text.now) }
{
    let (line, rest) = first_line(text);
    let point = point_of(line)?;
    Some((point, rest))
}

impl Points {
    /// Reads a file of addresses: four upper-case hexadecimal digits and a line feed for each,
    /// rising from line to line.
    ///
    /// # Errors
    /// The first line that is outside the form, or whose address is not above that of the line
    /// before it.
    pub fn read(alloc: Global, bytes: &[u8]) -> Result<Points, PointsError>
        ensures { (points bytes.now ≡ result) ⊎ (result ≡ Err NoMemory) }
    {
        let Ok(mut marked) = vec![in alloc; false; ADDRESSES] else {
            return Err(PointsError::NoMemory);
        };
        let mut line = 1;
        let mut least = 0;
        let mut rest = bytes;
        while !rest.is_empty() {
            let Some((point, others)) = next_point(rest) else {
                return Err(PointsError::BadLine { line });
            };
            if u32::from(point) < least {
                return Err(PointsError::BadOrder { line });
            }
            marked[point as usize] = true;
            least = u32::from(point) + 1;
            line += 1;
            rest = others;
        }
        Ok(Points { marked })
    }

    /// Returns true if the set contains address `at`.
    #[inline(always)]
    pub(crate) fn has(&self, at: u16) -> bool
        ensures { result ≡ slice_index_or self.now at false }
    {
        self.marked[at as usize]
    }
}
