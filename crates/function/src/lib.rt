//! An endpoint function: its register page and the DMA program in it.
#![tactic(auto)]

mod buffer;
mod function;
mod functions;
mod laws;
mod line;
mod open_tags;
mod plan;
mod reads;
mod registers;
mod tags;

pub use function::Function;
pub use functions::Functions;
pub use laws::{fixed_bytes_stay, lowest_free_tag_is_taken};
pub use open_tags::OpenTags;
pub use plan::{Plan, Tick};
pub use tags::{OpenTag, TagUse};
