//! The header of a configuration space (PCIe 4.0, 7.5.1).

ghost use Rattle.std.specs.Prelude.{◌≡◌};
ghost use Rattle.lspci.specs.Headers.{buses_of, class_of, device_of, kind_of, memory_window, prefetchable_window, vendor_of, window_of, wide_window_of};

use crate::space::ConfigSpace;

/// What stands behind the first 16 bytes of a header.
#[derive(Clone, Copy, Debug, PartialEq, Eq)]
pub enum HeaderKind {
    /// That of a function which is no bridge.
    Endpoint,
    /// That of a bridge to another PCI bus.
    Bridge,
    /// Another one, as that of a CardBus bridge.
    Other,
}

/// The buses of a bridge.
#[derive(Clone, Copy, Debug, PartialEq, Eq)]
pub struct BridgeBuses {
    /// The bus that it stands on.
    pub primary: u8,
    /// The bus directly below it.
    pub secondary: u8,
    /// The last bus below it.
    pub subordinate: u8,
}

/// The addresses that a bridge sends down.
#[derive(Clone, Copy, Debug, PartialEq, Eq)]
pub struct Window {
    /// The first one.
    pub base: u64,
    /// The last one.
    pub limit: u64,
}

/// The window of two registers of 16 bits, of which bits 15:4 are bits 31:20 of an address.
fn window_of(base: u16, limit: u16) -> Option<Window>
    ensures { result ≡ window_of base limit }
{
    wide_window_of(base, limit, 0, 0)
}

/// The same with the upper halves of the addresses. None where the base is above the limit.
fn wide_window_of(base: u16, limit: u16, upper_base: u32, upper_limit: u32) -> Option<Window>
    ensures { result ≡ wide_window_of base limit upper_base upper_limit }
{
    let base = u64::from(upper_base) * 0x1_0000_0000 + u64::from(base / 16) * 0x10_0000;
    let limit = u64::from(upper_limit) * 0x1_0000_0000
        + u64::from(limit / 16) * 0x10_0000
        + 0xf_ffff;
    if base <= limit {
        Some(Window { base, limit })
    } else {
        None
    }
}

impl ConfigSpace<'_> {
    /// The Vendor ID; FFFFh where nothing answered.
    pub fn vendor(&self) -> Option<u16>
        ensures { result ≡ vendor_of self.now.bytes.now }
    {
        self.word(0)
    }

    /// The Device ID.
    pub fn device(&self) -> Option<u16>
        ensures { result ≡ device_of self.now.bytes.now }
    {
        self.word(2)
    }

    /// Class and subclass, as 0604h for a bridge to another PCI bus.
    pub fn class(&self) -> Option<u16>
        ensures { result ≡ class_of self.now.bytes.now }
    {
        self.word(0x0a)
    }

    /// The Header Type, without the bit for several functions.
    pub fn kind(&self) -> Option<HeaderKind>
        ensures { result ≡ kind_of self.now.bytes.now }
    {
        match self.byte(0x0e)? % 128 {
            0 => Some(HeaderKind::Endpoint),
            1 => Some(HeaderKind::Bridge),
            _ => Some(HeaderKind::Other),
        }
    }

    /// The bus registers of a bridge.
    pub fn buses(&self) -> Option<BridgeBuses>
        ensures { result ≡ buses_of self.now.bytes.now }
    {
        let primary = self.byte(0x18)?;
        let secondary = self.byte(0x19)?;
        let subordinate = self.byte(0x1a)?;
        Some(BridgeBuses {
            primary,
            secondary,
            subordinate,
        })
    }

    /// The memory window of a bridge, if it has one.
    pub fn memory_window(&self) -> Option<Window>
        ensures { result ≡ memory_window self.now.bytes.now }
    {
        window_of(self.word(0x20)?, self.word(0x22)?)
    }

    /// The prefetchable window of a bridge, if it has one.
    pub fn prefetchable_window(&self) -> Option<Window>
        ensures { result ≡ prefetchable_window self.now.bytes.now }
    {
        let base = self.word(0x24)?;
        let limit = self.word(0x26)?;
        if base % 16 == 1 {
            wide_window_of(base, limit, self.long(0x28)?, self.long(0x2c)?)
        } else {
            window_of(base, limit)
        }
    }
}
