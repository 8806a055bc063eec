//! Why runs were not compared, and places not listed.

ghost use Rattle.std.specs.Prelude.{◌≡◌};
ghost use Rattle.fab_types.specs.Faults.{compare_fault_number, compare_fault_name, places_fault_number, places_fault_name};

use thiserror::Error;

/// Why two runs were not compared.
#[derive(Clone, Copy, Debug, PartialEq, Eq, Error)]
pub enum CompareFault {
    /// The layout gives the domain no port.
    #[error("the layout gives the domain no port")]
    NoDomain,
    /// Memory was refused.
    #[error("out of memory")]
    NoMemory,
}

impl CompareFault {
    /// The number of the refusal.
    pub fn number(&self) -> u8
        ensures { result ≡ compare_fault_number self.now }
    {
        match self {
            CompareFault::NoDomain => 1,
            CompareFault::NoMemory => 2,
        }
    }

    /// The name of the refusal.
    pub fn name(&self) -> &'static str
        ensures { result.now ≡ compare_fault_name self.now }
    {
        match self {
            CompareFault::NoDomain => "NoDomain",
            CompareFault::NoMemory => "NoMemory",
        }
    }
}

/// Why the places of a domain were not listed.
#[derive(Clone, Copy, Debug, PartialEq, Eq, Error)]
pub enum PlacesFault {
    /// The layout gives the domain no port.
    #[error("the layout gives the domain no port")]
    NoDomain,
    /// Memory was refused.
    #[error("out of memory")]
    NoMemory,
}

impl PlacesFault {
    /// The number of the refusal.
    pub fn number(&self) -> u8
        ensures { result ≡ places_fault_number self.now }
    {
        match self {
            PlacesFault::NoDomain => 1,
            PlacesFault::NoMemory => 2,
        }
    }

    /// The name of the refusal.
    pub fn name(&self) -> &'static str
        ensures { result.now ≡ places_fault_name self.now }
    {
        match self {
            PlacesFault::NoDomain => "NoDomain",
            PlacesFault::NoMemory => "NoMemory",
        }
    }
}
