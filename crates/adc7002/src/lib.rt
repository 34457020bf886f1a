//! The uPD7002, the analogue to digital converter, one microsecond at a time (uPD7002 data sheet).
#![tactic(auto)]

mod converter;
mod law;

pub use converter::Adc;
pub use law::{
    a_conversion_ends_in_time, a_conversion_given_up_leaves_nothing,
    a_conversion_goes_on_until_its_end,
};
