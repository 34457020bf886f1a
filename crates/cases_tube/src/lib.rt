//! Cases of the Tube: its chip, traces, parties, and two machines in two threads.
#![tactic(auto)]

#[cfg(test)]
mod tests;
