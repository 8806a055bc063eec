//! The tree of a layout as text, and what an audit of it found.
#![tactic(auto)]

mod explanation;
mod findings;
mod idle;
mod idle_lines;
mod indent;
mod linux;
mod port_line;
mod remarks;
mod summary;
mod tree;
mod witness;

pub use explanation::write_explanation;
pub use remarks::Remarks;
pub use witness::write_script;
