//! The base address registers of a function (PCIe 4.0, 7.5.1.2.1).

ghost use Rattle.std.specs.Prelude.{◌≡◌, ◌<◌, ◌≤◌};
ghost use Rattle.lspci.specs.Bars.{bar_at};

use crate::space::ConfigSpace;

/// What a base address register says.
#[derive(Clone, Copy, Debug, PartialEq, Eq)]
pub enum Bar {
    /// I/O.
    NoMemory,
    /// Memory from an address below 4 GB on; 0 where none was given.
    Memory { address: u32 },
    /// The same in two registers, so anywhere.
    WideMemory { address: u64 },
}

impl ConfigSpace<'_> {
    /// What an endpoint's base address register says, if it is shown. Its number is 0 to 5.
    pub fn bar(&self, number: u16) -> Option<Bar>
        requires { number < 6 }
        ensures { result ≡ bar_at self.now.bytes.now number }
    {
        let offset = 0x10 + 4 * number;
        let low = self.long(offset)?;
        if low % 2 == 1 {
            return Some(Bar::NoMemory);
        }
        let address = low / 16 * 16;
        if low / 2 % 4 != 2 {
            return Some(Bar::Memory { address });
        }
        let high = self.long(offset + 4)?;
        let address = u64::from(high) * 0x1_0000_0000 + u64::from(address);
        Some(Bar::WideMemory { address })
    }
}
