//! The commands of the program, over given files and outputs: what each prints.
#![tactic(auto)]

pub mod draw;
mod drive;
pub mod explain;
mod explain_scripts;
pub mod first;
mod import_inputs;
pub mod import_layout;
pub mod replay;
mod report;
pub mod run;
