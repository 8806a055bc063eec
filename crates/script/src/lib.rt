//! The script text: what the functions and the host of each domain do, line by line.
#![tactic(auto)]

mod commands;
mod lines;
mod packet_word;
mod read;

pub use commands::{access_of, domain_of, submission_of};
pub use fab_types::ScriptFault;
pub use lines::{Command, Line};
pub use packet_word::packet_bytes;
pub use read::Script;
