//! One page.

ghost use Rattle.std.specs.Prelude.{◌≡◌, ◌+◌, ◌≤◌, length, slice_range};
ghost use Rattle.std.specs.Borrow.{sem};
ghost use Rattle.host_memory.specs.Pages.{zeros};

// How many bytes a page has.
const PAGE: usize = 4096;

/// A page of 4,096 bytes, in a struct of its own, so that a contract can say what a loan of a part leaves.
#[derive(Debug, Drop)]
pub(crate) struct Page {
    pub(crate) bytes: [u8; PAGE],
}

/// The bytes of a page that was never lent to be written.
pub(crate) fn zero_bytes() -> &'static [u8]
    ensures value { result.now ≡ zeros 4096 }
    ensures size { length result.now ≡ 4096 }
{
    &[0; PAGE]
}

impl Page {
    ghost use Rattle.host_memory.specs.PageLends.{LendsPart};

    /// A page of zero bytes.
    pub(crate) fn zero() -> Page
        ensures { result.bytes ≡ zeros 4096 }
    {
        Page { bytes: [0; PAGE] }
    }

    /// Lends the bytes from `start` to `end` to be written.
    pub(crate) fn part_mut(&mut self, start: usize, end: usize) -> &mut [u8]
        requires start { start ≤ end }
        requires end { end ≤ 4096 }
        ensures* writes_back { sem 𝓛 (LendsPart self.entry start result) }
        ensures part { result.now ≡ slice_range self.old.bytes start end }
    {
        &mut self.bytes[start..end]
    }
}
