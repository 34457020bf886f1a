//! Cases of the devices of the host, its ROMs and its key scripts.
#![tactic(auto)]

#[cfg(test)]
mod tests;
