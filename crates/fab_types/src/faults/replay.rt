//! Why a journal was not replayed.

ghost use Rattle.std.specs.Prelude.{◌≡◌};
ghost use Rattle.fab_types.specs.Faults.{replay_fault_number, replay_fault_name};

use thiserror::Error;

/// Why a journal was not replayed.
#[derive(Clone, Copy, Debug, PartialEq, Eq, Error)]
pub enum ReplayFault {
    /// The entry of this index, the first such, is illegal after those before it.
    #[error("entry {0} of the journal is illegal")]
    Illegal(usize),
    /// Memory was refused.
    #[error("out of memory")]
    NoMemory,
}

impl ReplayFault {
    /// The number of the refusal.
    pub fn number(&self) -> u8
        ensures { result ≡ replay_fault_number self.now }
    {
        match self {
            ReplayFault::Illegal(_) => 1,
            ReplayFault::NoMemory => 2,
        }
    }

    /// The name of the refusal.
    pub fn name(&self) -> &'static str
        ensures { result.now ≡ replay_fault_name self.now }
    {
        match self {
            ReplayFault::Illegal(_) => "Illegal",
            ReplayFault::NoMemory => "NoMemory",
        }
    }
}
