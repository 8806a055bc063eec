ghost use Rattle.std.specs.Prelude.{◌≡◌};
ghost use Rattle.frame_log.specs.Faults.{frame_fault_number, frame_fault_name, fault_frame};

use crate::frame::Frame;
use thiserror::Error;

/// Why a domain did not take a frame. The frame is given back.
#[derive(Debug, Drop, Error)]
pub enum FrameFault {
    /// The domain doesn't have the packet in flight, or the call doesn't fit it.
    #[error("the packet is not in flight in this domain, or what is asked does not fit it")]
    Stray(Frame),
    /// Memory was refused.
    #[error("out of memory")]
    NoMemory(Frame),
}

impl FrameFault {
    /// The number of the refusal.
    pub fn number(&self) -> u8
        ensures { result ≡ frame_fault_number self.now }
    {
        match self {
            FrameFault::Stray(_) => 1,
            FrameFault::NoMemory(_) => 2,
        }
    }

    /// The name of the refusal.
    pub fn name(&self) -> &'static str
        ensures { result.now ≡ frame_fault_name self.now }
    {
        match self {
            FrameFault::Stray(_) => "Stray",
            FrameFault::NoMemory(_) => "NoMemory",
        }
    }

    /// The frame that was not taken.
    pub fn into_frame(self) -> Frame
        ensures { result ≡ fault_frame self }
    {
        match self {
            FrameFault::Stray(frame) => frame,
            FrameFault::NoMemory(frame) => frame,
        }
    }
}
