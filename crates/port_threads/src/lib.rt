//! All workers of the fabric of a layout, each in a thread of its own: started and stopped; and a gate that keeps them
//! together.
#![tactic(auto)]

mod build;
mod closing;
mod ending;
mod even_gate;
mod injecting;
mod joining;
mod monitor_worker;
mod resting;
mod ring_tallies;
mod rings;
mod running;
mod starting;
mod stopped;
mod stopping;
mod tallying;
mod worker;

pub use ending::Ending;
pub use even_gate::EvenGate;
pub use injector::{Injector, RefusedAccess};
pub use ring_tallies::RingTallies;
pub use running::Running;
pub use stopped::Stopped;
pub use thread_crew::{Gate, WorkerId};
pub use thread_staff::{Parts, PortRemains, Remains};
pub use thread_totals::{Count, Totals};
