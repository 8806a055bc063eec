//! Access Control Services of a downstream port (PCIe 4.0, 6.12): the capability block, the test of a
//! request, and the redirection of a route.
#![tactic(auto)]

mod block;
mod laws;
mod redirection;
mod vetting;

pub use block::AcsBlock;
pub use laws::{guarded_completions_go_up, guarded_requests_go_up};
pub use redirection::redirect;
pub use vetting::{Verdict, requester_of, vet};
