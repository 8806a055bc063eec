//! IDs of functions, ports and domains.

ghost use Rattle.std.specs.Prelude.{◌≡◌, ℕ, ◌+◌, ◌*◌, ◌<◌, ◌≤◌, ◌^◌, Some};
ghost use Rattle.std.specs.Option.{SomeIff};
ghost use Rattle.std.specs.Fmt.{decimal};
ghost use Rattle.fab_types.specs.Texts.{id_text};
ghost use Rattle.fab_types.specs.Id.{id_of, bus_of, device_of, function_of, host_of};

use std::fmt;
use std::marker::Model;

/// The ID of a function or a port (PCIe 4.0, 2.2.4.2 and 2.2.6.2).
/// It is bus (8 bits), device (5 bits) and function (3 bits), as the 16 bits in which every header carries it.
/// A contract sees the number.
#[derive(Clone, Copy, Debug, PartialEq, Eq, PartialOrd, Ord, Hash)]
pub struct Bdf(u16);

impl Model for Bdf {
    ghost Value = { ℕ };

    ghost view = { λ b. b.0 };

    ghost inverse = { λ n. record { 0 = n } };
}

impl Bdf {
    /// The ID of a function, if `device` is below 32 and `function` below 8.
    pub fn new(bus: u8, device: u8, function: u8) -> Option<Bdf>
        ensures { SomeIff result ((device < 32) × (function < 8)) (id_of bus device function) }
    {
        if device < 32 && function < 8 {
            Some(Bdf(u16::from(bus) * 256 + u16::from(device) * 8 + u16::from(function)))
        } else {
            None
        }
    }

    /// The ID that these bits are.
    pub fn from_bits(bits: u16) -> Bdf
        ensures { result ≡ bits }
    {
        Bdf(bits)
    }

    /// The 16 bits of the ID.
    pub fn bits(self) -> u16
        ensures value { result ≡ self }
        ensures small { self < 2 ^ 16 }
    {
        let Bdf(bits) = self;
        bits
    }

    /// The bus number, 0 to 255.
    pub fn bus(self) -> u8
        ensures { result ≡ bus_of self }
    {
        (self.0 / 256) as u8
    }

    /// The device number, below 32.
    pub fn device(self) -> u8
        ensures { result ≡ device_of self }
    {
        (self.0 / 8 % 32) as u8
    }

    /// The function number, below 8.
    pub fn function(self) -> u8
        ensures { result ≡ function_of self }
    {
        (self.0 % 8) as u8
    }
}

impl fmt::Display for Bdf {
    ghost output = { λ id. Some (id_text id) };

    /// As `03:00.0`: two hexadecimal digits, two, one digit.
    fn fmt<W: fmt::Write>(&self, f: &mut fmt::Formatter<W>) -> fmt::Result {
        let (bus, device, function) = (self.bus(), self.device(), self.function());
        write!(f, "{bus:02x}:{device:02x}.{function}")
    }
}

/// The ID of a switch's port. A contract sees its number.
#[derive(Clone, Copy, Debug, PartialEq, Eq, PartialOrd, Ord, Hash)]
pub struct PortId(Bdf);

impl Model for PortId {
    ghost Value = { ℕ };

    ghost view = { λ p. p.0 };

    ghost inverse = { λ n. record { 0 = n } };
}

impl PortId {
    /// The port of this ID.
    pub fn new(id: Bdf) -> PortId
        ensures { result ≡ id }
    {
        PortId(id)
    }

    /// The ID of the port.
    pub fn id(self) -> Bdf
        ensures { result ≡ self }
    {
        let PortId(id) = self;
        id
    }
}

impl fmt::Display for PortId {
    ghost output = { λ id. Some (id_text id) };

    fn fmt<W: fmt::Write>(&self, f: &mut fmt::Formatter<W>) -> fmt::Result {
        let id = self.0;
        write!(f, "{id}")
    }
}

/// The number of a domain (a tenant), 1 to 31. A contract sees the number.
#[derive(Clone, Copy, Debug, PartialEq, Eq, PartialOrd, Ord, Hash)]
pub struct DomainId(u8);

impl Model for DomainId {
    ghost Value = { ℕ };

    ghost view = { λ d. d.0 };

    ghost invariant = { λ d. (1 ≤ d.0) × (d.0 ≤ 31) };

    ghost inverse = { λ n. record { 0 = n } };
}

impl DomainId {
    /// The domain of this number, if it is 1 to 31.
    pub fn new(number: u8) -> Option<DomainId>
        ensures { SomeIff result ((1 ≤ number) × (number ≤ 31)) number }
    {
        if 1 <= number && number <= 31 {
            Some(DomainId(number))
        } else {
            None
        }
    }

    /// The number, 1 to 31.
    pub fn get(self) -> u8
        ensures value { result ≡ self }
        ensures range { (1 ≤ self) × (self ≤ 31) }
    {
        let DomainId(number) = self;
        number
    }

    /// The ID under which the host of this domain makes requests.
    /// It is device `d` of bus 00.
    pub fn host(self) -> Bdf
        ensures { result ≡ host_of self }
    {
        Bdf(u16::from(self.0) * 8)
    }
}

impl fmt::Display for DomainId {
    ghost output = { λ number. Some (decimal number) };

    fn fmt<W: fmt::Write>(&self, f: &mut fmt::Formatter<W>) -> fmt::Result {
        let number = self.0;
        write!(f, "{number}")
    }
}
