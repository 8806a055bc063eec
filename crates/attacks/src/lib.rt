//! What a domain may try against another, in a layout that isn't guarded: packets, and the control that lets each pass.
#![tactic(auto)]

mod accesses;
mod answers;
mod attack;
mod closings;
mod control;
mod findings;
mod names;
mod own_read;
mod owners;
mod packet;
mod path;
mod requests;

pub use attack::{Access, Attack, Harm, Way};
pub use control::is_clear;
pub use findings::{Findings, Pair, Witness};
pub use names::own_functions;
pub use own_read::OwnRead;
pub use owners::{has_nothing_to_keep, owners_count};
pub use requests::tries;
