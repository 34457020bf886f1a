//! The commands of beebtube, over any shelf and outlet.
#![tactic(auto)]

mod calls;
mod road;
mod work;

pub use calls::{plain, top};
pub use cmd_stages::Name;
pub use cmd_status::{Status, Which};
