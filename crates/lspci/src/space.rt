//! A configuration space, byte by byte.

ghost use Rattle.std.specs.Prelude.{◌≡◌, ◌<◌, ◌^◌};
ghost use Rattle.lspci.specs.Spaces.{byte_at, long_at, word_at};

/// A configuration space as far as it is shown (PCIe 4.0, 7.5).
#[derive(Clone, Copy, Debug)]
pub struct ConfigSpace<'a> {
    /// Its bytes, from offset 0 on.
    pub bytes: &'a [u8],
}

impl ConfigSpace<'_> {
    /// The byte at an offset, if it is shown.
    pub fn byte(&self, offset: u16) -> Option<u8>
        ensures { result ≡ byte_at self.now.bytes.now offset }
    {
        self.bytes.get(usize::from(offset)).copied()
    }

    fn pair(&self, offset: usize) -> Option<u16>
        requires { offset < 2 ^ 32 }
        ensures { result ≡ word_at self.now.bytes.now offset }
    {
        let low = *self.bytes.get(offset)?;
        let high = *self.bytes.get(offset + 1)?;
        Some(u16::from(low) + 256 * u16::from(high))
    }

    /// The register of 16 bits at an offset, if it is shown.
    pub fn word(&self, offset: u16) -> Option<u16>
        ensures { result ≡ word_at self.now.bytes.now offset }
    {
        self.pair(usize::from(offset))
    }

    /// The register of 32 bits at an offset, if it is shown.
    pub fn long(&self, offset: u16) -> Option<u32>
        ensures { result ≡ long_at self.now.bytes.now offset }
    {
        let low = self.pair(usize::from(offset))?;
        let high = self.pair(usize::from(offset) + 2)?;
        Some(u32::from(low) + 65536 * u32::from(high))
    }
}
