//! One modular counter.

ghost use Rattle.std.specs.Prelude.{◌≡◌, ◌+◌, ◌%◌, ◌<◌};
ghost use Rattle.credit.specs.Counter.{distance};

use std::marker::Model;

/// A count of credits modulo `SIZE` (PCIe 4.0, 2.6.1). A contract sees the remainder.
#[derive(Clone, Copy, Debug, PartialEq, Eq)]
pub struct Counter<const SIZE: u16> {
    value: u16,
}

impl<const SIZE: u16> Model for Counter<SIZE> {
    ghost use Rattle.std.specs.Prelude.{ℕ, ◌<◌};

    ghost Value = { ℕ };

    ghost view = { λ c. c.value };

    ghost invariant = { λ c. c.value < SIZE };

    ghost inverse = { λ n. record { value = n } };
}

impl<const SIZE: u16> Counter<SIZE> {
    /// The counter with this remainder, which is below `SIZE`.
    pub fn new(value: u16) -> Self
        requires { value < SIZE }
        ensures { result ≡ value }
    {
        Counter { value }
    }

    /// The remainder, below `SIZE`.
    pub fn value(self) -> u16
        ensures value { result ≡ self.entry }
        ensures small { self.entry < SIZE }
    {
        self.value
    }

    /// The counter after so many credits more.
    pub fn plus(self, credits: u16) -> Self
        ensures { result ≡ (self.entry + credits) % SIZE }
    {
        let sum = u32::from(self.value) + u32::from(credits);
        Counter {
            value: (sum % u32::from(SIZE)) as u16,
        }
    }

    /// The counter so many credits before.
    pub fn minus(self, credits: u16) -> Self
        ensures { result ≡ distance SIZE (credits % SIZE) self.entry }
    {
        let behind = u32::from(self.value) + u32::from(SIZE - credits % SIZE);
        Counter {
            value: (behind % u32::from(SIZE)) as u16,
        }
    }

    /// How many credits this counter is behind `other`, modulo `SIZE`.
    pub fn distance_to(self, other: Self) -> u16
        ensures { result ≡ distance SIZE self.entry other.entry }
    {
        let ahead = u32::from(other.value) + u32::from(SIZE - self.value);
        (ahead % u32::from(SIZE)) as u16
    }
}
