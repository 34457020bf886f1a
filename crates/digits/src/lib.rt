//! Numbers as hexadecimal and decimal digits, written and read, and the lines of a text. Digits are
//! those of ASCII; hexadecimal ones are written as capitals, and read as such or in any case.
#![tactic(auto)]

mod decimal;
mod hexadecimal;
mod law;
mod lines;

pub use decimal::{all_digits, decimal_number, decimal_value, is_digit};
pub use hexadecimal::{
    all_hex, all_hex_any_case, four_digits, hex_digit, hex_number, is_hex, is_hex_any_case,
    ten_digits, two_digits,
};
pub use law::{decimal_reads_back, hex_reads_back};
pub use lines::first_line;
