//! The text of a domain's journal: line by line, and a whole journal written out and replayed.
#![tactic(auto)]

mod entries;
mod fields;
mod fits;
mod flight;
mod journals;
mod laws;
mod notes;
mod read;
mod replaying;
mod words;

pub use fab_types::ScriptFault;
pub use fields::entry_of;
pub use fits::entry_fits;
pub use journals::write_journal;
pub use laws::{entries_are_read_back, journals_are_read_back};
pub use read::{JournalLine, JournalText};
pub use replaying::{LineFault, replay};
