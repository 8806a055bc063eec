//! Rings for any table of wires: laid, dealt out to workers by their ends, and tallied once the ends are back.
#![tactic(auto)]

mod dealing;
mod ends;
mod in_end;
mod laid;
mod laws;
mod out_end;
mod out_lane;
mod ring;
mod ring_tally;
mod undoing;
mod wire;

pub use dealing::deal;
pub use ends::Ends;
pub use in_end::InEnd;
pub use laid::{Laid, lay};
pub use laws::a_worker_has_the_ends_of_its_wires;
pub use out_end::OutEnd;
pub use ring::Ring;
pub use ring_tally::RingTally;
pub use undoing::undo;
pub use wire::{Wire, are_within};
