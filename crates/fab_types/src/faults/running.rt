//! Why workers were not started, or what they left does not add up.

ghost use Rattle.std.specs.Prelude.{◌≡◌};
ghost use Rattle.fab_types.specs.Faults.{start_fault_number, start_fault_name, stop_fault_number, stop_fault_name};

use thiserror::Error;

/// Why no worker runs.
#[derive(Clone, Copy, Debug, PartialEq, Eq, Error)]
pub enum StartFault {
    /// Memory was refused.
    #[error("out of memory")]
    NoMemory,
    /// A thread could not be made.
    #[error("a thread could not be made")]
    NoThread,
}

impl StartFault {
    /// The number of the refusal.
    pub fn number(&self) -> u8
        ensures { result ≡ start_fault_number self.now }
    {
        match self {
            StartFault::NoMemory => 1,
            StartFault::NoThread => 2,
        }
    }

    /// The name of the refusal.
    pub fn name(&self) -> &'static str
        ensures { result.now ≡ start_fault_name self.now }
    {
        match self {
            StartFault::NoMemory => "NoMemory",
            StartFault::NoThread => "NoThread",
        }
    }
}

/// Why a stop gives nothing back.
#[derive(Clone, Copy, Debug, PartialEq, Eq, Error)]
pub enum StopFault {
    /// Memory was refused.
    #[error("out of memory")]
    NoMemory,
    /// The packets that were found are not those in flight.
    #[error("the packets found are not those in flight")]
    Unbalanced,
}

impl StopFault {
    /// The number of the refusal.
    pub fn number(&self) -> u8
        ensures { result ≡ stop_fault_number self.now }
    {
        match self {
            StopFault::NoMemory => 1,
            StopFault::Unbalanced => 2,
        }
    }

    /// The name of the refusal.
    pub fn name(&self) -> &'static str
        ensures { result.now ≡ stop_fault_name self.now }
    {
        match self {
            StopFault::NoMemory => "NoMemory",
            StopFault::Unbalanced => "Unbalanced",
        }
    }
}
