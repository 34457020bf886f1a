//! Two instances of a kind that must end the same after different runs.
use crate::chance::Chance;
use beeb_bits::NoMemory;
use std::alloc::Global;

/// A kind that is tried in two instances on a course `C`.
pub trait Tried<C>: Drop {
    /// Makes one at the course's beginning.
    fn make(alloc: Global, course: &C) -> Result<Self, NoMemory>;

    /// Returns true if both end the same on the course.
    fn agrees(
        &mut self,
        other: &mut Self,
        alloc: Global,
        course: &C,
        chance: &mut Chance,
    ) -> Result<bool, NoMemory>;
}

/// Returns true if two that are made for a course end the same on it. Generic, since a proof that
/// sees the fields of a machine follows each of them over each exit.
pub fn agree<C, T: Tried<C>>(
    alloc: Global,
    course: &C,
    chance: &mut Chance,
) -> Result<bool, NoMemory> {
    let mut one = T::make(alloc, course)?;
    let mut other = T::make(alloc, course)?;
    one.agrees(&mut other, alloc, course, chance)
}
