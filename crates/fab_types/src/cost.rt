//! What packets cost in flow control credits (PCIe 4.0, 2.6.1).

ghost use Rattle.std.specs.Prelude.{◌≡◌, ◌+◌, ◌/◌, ◌≤◌};
ghost use Rattle.std.specs.Option.{SomeIff};

use crate::class::Class;
use std::marker::Model;

/// The data credits of a packet, at most 16.
/// None has more than 256 bytes of payload. A contract sees the number.
#[derive(Clone, Copy, Debug, PartialEq, Eq)]
pub struct DataCredits(u16);

impl Model for DataCredits {
    ghost use Rattle.std.specs.Prelude.{ℕ, ◌≤◌};

    ghost Value = { ℕ };

    ghost view = { λ c. c.0 };

    ghost invariant = { λ c. c.0 ≤ 16 };

    ghost inverse = { λ n. record { 0 = n } };
}

impl DataCredits {
    /// The number, 0 to 16.
    pub fn get(self) -> u16
        ensures value { result ≡ self }
        ensures few { self ≤ 16 }
    {
        let DataCredits(number) = self;
        number
    }
}

/// What a packet costs in flow control credits (PCIe 4.0, 2.6.1).
/// That is one header credit of its class, and data credits of that class, one for each 4 DW of payload begun.
#[derive(Clone, Copy, Debug, PartialEq, Eq)]
pub struct Cost {
    /// The class whose credits it costs.
    pub class: Class,
    /// Data credits, at most 16.
    pub data: DataCredits,
}

impl Cost {
    /// That of a packet of this class without data.
    pub fn without_data(class: Class) -> Cost
        ensures { result ≡ record { class = class; «data» = 0 } }
    {
        Cost {
            class,
            data: DataCredits(0),
        }
    }

    /// That of a packet of this class with a payload of so many bytes.
    /// None above 256 bytes, which no packet has.
    pub fn of_payload(class: Class, bytes: usize) -> Option<Cost>
        ensures { SomeIff result (bytes ≤ 256) (record { class = class; «data» = (bytes + 15) / 16 }) }
    {
        if bytes > 256 {
            return None;
        }
        Some(Cost {
            class,
            data: DataCredits(bytes.div_ceil(16) as u16),
        })
    }
}
