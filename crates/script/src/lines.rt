//! The lines of a script.

use fab_types::{Bdf, DomainId, HostAccess, PacketBytes};

/// What a line asks for.
#[derive(Debug, Drop)]
pub enum Command {
    /// The function submits a packet of these bytes.
    Submit(Bdf, PacketBytes),
    /// The function performs one line of its program.
    Tick(Bdf),
    /// The host of the domain reads or writes registers.
    Mmio(DomainId, HostAccess),
    /// Each function and port takes its turn, so many times.
    Sweep(u32),
}

/// A line of a script that is no comment.
#[derive(Debug, Drop)]
pub struct Line {
    /// The number of the line, counted from 1, comments too.
    pub number: u32,
    /// What the line asks for.
    pub command: Command,
}
