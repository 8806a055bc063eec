//! The lines of a platform layout, and what it gives each domain.
#![tactic(auto)]

mod additions;
mod layout;
mod map_lines;
mod read;
mod rules;
mod views;

pub use layout::Layout;
pub use platform::Start;
