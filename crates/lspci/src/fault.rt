//! Why a dump was refused.

use std::alloc::AllocError;
use thiserror::Error;

/// What is wrong with a line of a dump.
#[derive(Clone, Copy, Debug, PartialEq, Eq, Error)]
pub enum DumpCause {
    /// The line has no form that a dump has, and stands among the rows of a device.
    #[error("the line is not understood (mixed with other output?)")]
    Line,
    /// The row belongs to no device, or another offset is due.
    #[error("the row is out of place")]
    Row,
    /// A device ends before its configuration space does.
    #[error("a configuration space is cut off")]
    Cut,
    /// The device stands in an earlier line.
    #[error("the device stands there twice")]
    Twice,
    /// The text ends without a device.
    #[error("there is no device: run lspci -xxxx as root")]
    Empty,
    /// Memory was refused.
    #[error("out of memory")]
    NoMemory,
}

impl From<AllocError> for DumpCause {
    ghost use Rattle.std.specs.Prelude.{◌≡◌};
    ghost use Rattle.lspci.specs.declared.fault.DumpCause.TheVariants as cause;

    ghost from_gives = { λ _ c. c ≡ cause.NoMemory };

    fn from(_error: AllocError) -> Self {
        DumpCause::NoMemory
    }
}

/// Why a dump was refused, and at which line.
#[derive(Clone, Copy, Debug, PartialEq, Eq, Error)]
#[error("line {line}: {cause}")]
pub struct DumpFault {
    /// What is wrong with the line.
    pub cause: DumpCause,
    /// The number of the line, counted from 1.
    pub line: u32,
}
