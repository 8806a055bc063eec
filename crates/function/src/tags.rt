//! Tags that wait for completions.

ghost use Rattle.std.specs.Prelude.{◌≡◌};
ghost use Rattle.function.specs.Tags.{is_line};

use fab_types::Origin;

/// What a Tag was opened for.
#[derive(Clone, Copy, Debug, PartialEq, Eq)]
pub enum TagUse {
    /// A submitted packet.
    Raw,
    /// A read line of a DMA program.
    /// Its data go to this offset of the buffer (bytes), with this count (DW).
    Line(u16, u8),
}

/// A Tag that a function or host has open (PCIe 4.0, 2.2.6.2).
/// The host is a domain's. A completion is awaited.
#[derive(Clone, Copy, Debug, PartialEq, Eq)]
pub struct OpenTag {
    /// The function or host that has it open.
    pub owner: Origin,
    /// The Tag.
    pub tag: u8,
    /// What it was opened for.
    pub usage: TagUse,
}

impl TagUse {
    /// Was it opened by a read line?
    pub(crate) fn is_line(self) -> bool
        ensures { result ≡ is_line self }
    {
        match self {
            TagUse::Raw => false,
            TagUse::Line(_, _) => true,
        }
    }
}
