//! What a domain's host asks of a function's register page (PCIe 4.0, 2.2.7).

ghost use Rattle.std.specs.Prelude.{◌≡◌, IfOk};

use crate::faults::memory::NoMemory;
use crate::id::Bdf;
use crate::packet_bytes::PacketBytes;
use std::alloc::Global;

/// What the host does with registers.
#[derive(Debug, Drop)]
pub enum Operation {
    /// It reads this many DW.
    Read(u32),
    /// It writes these bytes.
    Write(PacketBytes),
}

/// A read or write of a function's register page by the domain's host.
#[derive(Debug, Drop)]
pub struct HostAccess {
    /// The function whose page it is.
    pub function: Bdf,
    /// Where in the page it begins, in bytes.
    pub offset: u16,
    /// Whether it reads or writes, and what.
    pub operation: Operation,
}

impl Operation {
    fn try_clone(&self, alloc: Global) -> Result<Operation, NoMemory>
        ensures { IfOk result (λ copy. copy ≡ self.now) }
    {
        match self {
            Operation::Read(count) => Ok(Operation::Read(*count)),
            Operation::Write(bytes) => Ok(Operation::Write(bytes.try_clone(alloc)?)),
        }
    }
}

impl HostAccess {
    /// The same once more. It answers `NoMemory` where memory was refused.
    pub fn try_clone(&self, alloc: Global) -> Result<HostAccess, NoMemory>
        ensures { IfOk result (λ copy. copy ≡ self.now) }
    {
        Ok(HostAccess {
            function: self.function,
            offset: self.offset,
            operation: self.operation.try_clone(alloc)?,
        })
    }
}
