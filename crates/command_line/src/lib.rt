//! The words of the program's command line: what they ask for.
#![tactic(auto)]

mod description;
mod request;

pub use request::{Explaining, Files, Importing, Request, WordsFault, read_request};
