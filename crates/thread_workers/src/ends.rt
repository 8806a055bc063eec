//! What the workers of functions and of the host share: how a packet that was taken ends, how what an outbox has goes
//! to a link, and how a begin that came from outside is served.

mod aliens;
mod delivering;
mod entering;
mod own;
mod room;
mod serving;
mod strays;
mod taken_by;

pub(crate) use aliens::end_alien;
pub(crate) use entering::enter_each;
pub(crate) use own::end_own;
pub(crate) use serving::{Begun, serve_begin};
pub use strays::keep_stray;
pub(crate) use taken_by::NotTaken;
pub use taken_by::TakenBy;
