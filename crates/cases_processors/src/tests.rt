//! Tables of cases, by the public calls of each crate.
mod arithmetic;
mod assembler;
mod bits_and_ticks;
mod cmos_65c02;
mod demonstration;
mod disassembler;
mod instructions;
mod nmos_6502;
mod numbers;
mod reports;
mod shelves_and_crews;
mod whole_instructions;
mod words;
