//! The ACS capability of a function (PCIe 4.0, 7.7.8).

ghost use Rattle.std.specs.Prelude.{◌≡◌};
ghost use Rattle.lspci.specs.Acs.{acs_of, egress_bit, has_wide_registers, is_wide_device, standard_acs, vector_bit, vector_size, wide_acs};

use crate::capabilities::PortType;
use crate::space::ConfigSpace;

/// What a dump shows of a function's ACS registers.
#[derive(Clone, Copy, Debug, PartialEq, Eq)]
pub enum Acs {
    /// The function has no such capability.
    Absent,
    /// They aren't shown. Not even the first 256 bytes are, or of a PCI Express function no more than those.
    Unknown,
    /// The capability register, and the control register behind it.
    Standard { capability: u16, control: u16 },
    /// The same, in registers of 32 bits: an erratum of Intel root ports.
    Wide { capability: u32, control: u32 },
}

/// Has an Intel root port of this Device ID the registers of 32 bits?
fn is_wide_device(device: u16) -> bool
    ensures { result ≡ is_wide_device device }
{
    0x9d10 <= device && device <= 0x9d1b
        || 0xa110 <= device && device <= 0xa11f
        || 0xa167 <= device && device <= 0xa16a
        || 0xa290 <= device && device <= 0xa29f
        || 0xa2e7 <= device && device <= 0xa2ee
}

/// How many bits an Egress Control Vector has, by the capability register.
fn vector_size(capability: u16) -> u16
    ensures { result ≡ vector_size capability }
{
    match capability / 256 % 256 {
        0 => 256,
        size => size,
    }
}

impl ConfigSpace<'_> {
    fn has_wide_registers(&self) -> bool
        ensures { result ≡ has_wide_registers self.now.bytes.now }
    {
        match (self.port_type(), self.vendor(), self.device()) {
            (Some(PortType::RootPort), Some(0x8086), Some(device)) => is_wide_device(device),
            _ => false,
        }
    }

    fn standard_acs(&self, offset: u16) -> Option<Acs>
        ensures { result ≡ standard_acs self.now.bytes.now offset }
    {
        let capability = self.word(offset.checked_add(4)?)?;
        let control = self.word(offset.checked_add(6)?)?;
        Some(Acs::Standard {
            capability,
            control,
        })
    }

    fn wide_acs(&self, offset: u16) -> Option<Acs>
        ensures { result ≡ wide_acs self.now.bytes.now offset }
    {
        let capability = self.long(offset.checked_add(4)?)?;
        let control = self.long(offset.checked_add(8)?)?;
        Some(Acs::Wide {
            capability,
            control,
        })
    }

    /// The ACS registers of the function.
    /// Where the lists of capabilities may go on beyond what is shown, they are unknown. Without a PCI Express
    /// capability it has none.
    #[tactic(auto, unfolding(crate::specs::Acs::acs_of))]
    pub fn acs(&self) -> Acs
        ensures { result ≡ acs_of self.now.bytes.now }
    {
        if self.bytes.len() < 0x100 {
            return Acs::Unknown;
        }
        if self.port_type().is_none() {
            return Acs::Absent;
        }
        if !self.has_extended() {
            return Acs::Unknown;
        }
        let Some(offset) = self.extended_capability(0x0d) else {
            return Acs::Absent;
        };
        let registers = if self.has_wide_registers() {
            self.wide_acs(offset)
        } else {
            self.standard_acs(offset)
        };
        registers.unwrap_or(Acs::Unknown)
    }

    /// The bit of a port in the Egress Control Vector of the capability at this offset.
    fn vector_bit(&self, number: u8, offset: u16) -> Option<bool>
        ensures { result ≡ vector_bit self.now.bytes.now number offset }
    {
        let register = offset.checked_add(8 + u16::from(number / 32) * 4)?;
        let part = self.long(register)?;
        Some((part >> (number % 32)) % 2 == 1)
    }

    /// The bit of the port of this number in the Egress Control Vector, if the vector has one and it is shown. Requests for
    /// a port whose bit is 0 go there directly (PCIe 4.0, 7.7.8.4).
    pub fn egress_bit(&self, number: u8) -> Option<bool>
        ensures { result ≡ egress_bit self.now.bytes.now number }
    {
        match self.acs() {
            Acs::Standard { capability, .. } if u16::from(number) < vector_size(capability) => {
                self.vector_bit(number, self.extended_capability(0x0d)?)
            }
            _ => None,
        }
    }
}
