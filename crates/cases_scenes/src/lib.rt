//! Whole runs of the commands, from files to files: tests that cross all crates.
#![tactic(auto)]

#[cfg(test)]
mod tests;
