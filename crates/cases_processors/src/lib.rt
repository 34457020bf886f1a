//! Cases for the crates of the processors, the assembler and related tools: source texts,
//! arithmetic, instruction tables, files.
#![tactic(auto)]

#[cfg(test)]
mod tests;
