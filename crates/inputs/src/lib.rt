//! What a command is given: the texts of the files that its words name, and the domain that it is asked about; and why it
//! stops.
#![tactic(auto)]

mod fault;
mod files;
mod given;
mod starts;
mod texts;

pub use fault::{ExitStatus, Fault};
pub use files::{FileFault, FileGiver, FileTaker, WriteFault};
pub use given::{Inputs, inputs_of};
pub use starts::start_of;
pub use texts::{journal_of, layout_in, layout_of, script_of, text_of};
