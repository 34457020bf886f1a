//! Cases of the host's bus, of the second processor, and of listings of both machines.
#![tactic(auto)]

#[cfg(test)]
mod tests;
