//! Why there is no layout of a dump.

use crate::reason::{MachineId, Why};
use fab_types::NoMemory;
use thiserror::Error;

/// Why there is no layout of a dump.
#[derive(Clone, Copy, Debug, PartialEq, Eq, Error)]
pub enum ImportFault {
    /// No more is shown than what everybody may read.
    #[error("64 bytes are shown of each device: run lspci as root")]
    Unprivileged,
    /// No root port stands on bus 00, nor anywhere else.
    #[error("no root port stands on bus 00")]
    NoRoot,
    /// No root port stands on bus 00, but so many do elsewhere.
    #[error("no root port stands on bus 00, but {count} elsewhere: ask for one by --root, as {first}")]
    OtherRoots { first: MachineId, count: usize },
    /// No root port stands where one was asked for.
    #[error("no root port is {device}")]
    NotRoot { device: MachineId },
    /// The list of owners names a device that the dump hasn't.
    #[error("{device} has an owner, and there is no such device")]
    NoDevice { device: MachineId },
    /// Below one port of the top switch stand two devices of different owners.
    #[error("{one} and {other} have different owners, and stand below one port")]
    TwoOwners { one: MachineId, other: MachineId },
    /// The list of owners names a device that the layout hasn't.
    #[error("{device} has an owner, and no place in the layout: {why}")]
    Unplaced { device: MachineId, why: Why },
    /// The layout has no function; this is the most frequent reason.
    #[error("no endpoint has a place: {why}")]
    NoPlace { why: Why },
    /// The layout has no function, and the dump no endpoint.
    #[error("no endpoint has a place: there is none")]
    NoEndpoint,
    /// Memory was refused.
    #[error("out of memory")]
    NoMemory,
}

impl From<NoMemory> for ImportFault {
    ghost use Rattle.std.specs.Prelude.{◌≡◌};
    ghost use Rattle.import.specs.declared.fault.ImportFault.TheVariants as fault;

    ghost from_gives = { λ _ f. f ≡ fault.NoMemory };

    fn from(_error: NoMemory) -> Self {
        ImportFault::NoMemory
    }
}
