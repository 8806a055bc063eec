//! Whether the domains of a layout are kept apart, and where they aren't, packets that show it.
#![tactic(auto)]

mod landing;
mod search;
mod seen;
mod setting;
mod trial;

pub use attacks::{Findings, Harm, OwnRead, Pair, Witness};
pub use search::audit;
