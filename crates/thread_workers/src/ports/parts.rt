//! What a port's worker leaves.

use crate::link_side::LinkSide;
use monitor::QueueReporter;
use port::Port;

/// All that was a port's own while its worker ran. What is still in it was made, and ended nowhere.
#[derive(Drop)]
pub struct PortParts {
    /// The port, with what came back to it, and its strays.
    /// A report and an answer can have come back.
    pub port: Port,
    /// What waits to be sent, and what came and wasn't taken.
    pub side: LinkSide,
    /// Its end of the queue of violations.
    pub reporter: QueueReporter,
}
