//! Sweeps of a fabric: each of its events once, in a fixed order; and which stations an event may wake, so that
//! something may move where nothing could.
#![tactic(auto)]

mod moves;
mod order;
mod reach;
mod site;
mod sweep;
mod sweep_laws;
mod sweeper;
mod visit;
mod wakeful;
mod waking_laws;
mod watchpoint;

pub use order::stations;
pub use sweep::sweeps;
pub use sweep_laws::a_sweep_that_moves_nothing_is_the_last;
pub use sweeper::Sweeper;
pub use waking_laws::{events_leave_other_stations_quiet, events_wake_no_other_station};
