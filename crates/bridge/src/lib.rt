//! Where the ports of a switch send a packet.
#![tactic(auto)]

mod owners;
mod route;
mod routing;
mod switch;
mod switches;
mod target;
mod windows;

pub use route::Route;
pub use routing::Bridge;
pub use target::Target;
