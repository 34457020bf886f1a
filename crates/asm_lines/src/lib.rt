//! The lines of a source text for the assembler: the tokens of each, and their meaning.
#![tactic(auto)]

mod syntax;
mod tokens;

pub use syntax::{Base, Line, Number, Operand, Portion, Statement, Value, ValueList, next_line};
