//! Why an injector took nothing.

ghost use Rattle.std.specs.Prelude.{◌≡◌};
ghost use Rattle.fab_types.specs.Faults.{injector_fault_number, injector_fault_name};

use thiserror::Error;

/// Why an injector took no begin. They are tested in the order `WrongOrigin`, `TooLong`, `RingFull`.
#[derive(Clone, Copy, Debug, PartialEq, Eq, Error)]
pub enum InjectorFault {
    /// The ring to the worker is full.
    #[error("the ring is full")]
    RingFull,
    /// Over 272 bytes.
    #[error("the packet is longer than 272 bytes")]
    TooLong,
    /// A function does not access registers, and a host does not submit or tick.
    #[error("this origin cannot begin that")]
    WrongOrigin,
}

impl InjectorFault {
    /// The number of the refusal.
    pub fn number(&self) -> u8
        ensures { result ≡ injector_fault_number self.now }
    {
        match self {
            InjectorFault::RingFull => 1,
            InjectorFault::TooLong => 2,
            InjectorFault::WrongOrigin => 3,
        }
    }

    /// The name of the refusal.
    pub fn name(&self) -> &'static str
        ensures { result.now ≡ injector_fault_name self.now }
    {
        match self {
            InjectorFault::RingFull => "RingFull",
            InjectorFault::TooLong => "TooLong",
            InjectorFault::WrongOrigin => "WrongOrigin",
        }
    }
}
