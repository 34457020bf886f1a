//! Cases of the picture.
#![tactic(auto)]

#[cfg(test)]
mod tests;
