//! The lists of capabilities of a configuration space (PCIe 4.0, 7.5.1.1.11 and 7.6.3).

ghost use Rattle.std.specs.Prelude.{◌≡◌};
ghost use Rattle.lspci.specs.Capabilities.{capability_of, capability_from, entry_at, extended_entry_at, extended_from, extended_of, has_extended, port_number_of, port_type_of, port_type_of_bits};

use crate::space::ConfigSpace;

/// The most entries that fit in the first 256 bytes behind the header.
const MOST: u16 = 48;

/// The most entries that fit in the extended configuration space.
const MOST_EXTENDED: u16 = 960;

/// What a function is in a tree of links (PCIe 4.0, 7.5.3.2).
#[derive(Clone, Copy, Debug, PartialEq, Eq)]
pub enum PortType {
    /// An endpoint, also a legacy one.
    Endpoint,
    /// A root port.
    RootPort,
    /// The upstream port of a switch.
    Upstream,
    /// A downstream port of a switch.
    Downstream,
    /// A bridge between PCI Express and conventional PCI.
    Bridge,
    /// An endpoint of the root complex itself.
    Integrated,
    /// Another one.
    Other,
}

#[derive(Clone, Copy)]
struct Entry {
    id: u16,
    next: u16,
}

fn port_type_of_bits(bits: u16) -> PortType
    ensures { result ≡ port_type_of_bits bits }
{
    match bits {
        0 | 1 => PortType::Endpoint,
        4 => PortType::RootPort,
        5 => PortType::Upstream,
        6 => PortType::Downstream,
        7 | 8 => PortType::Bridge,
        9 => PortType::Integrated,
        _ => PortType::Other,
    }
}

impl ConfigSpace<'_> {
    /// The entry at an offset. None stands in the header, and none has all bits set.
    fn entry_at(&self, offset: u16) -> Option<Entry>
        ensures { result ≡ entry_at self.now.bytes.now offset }
    {
        let word = self.word(offset)?;
        if offset < 0x40 || word == 0xffff {
            return None;
        }
        let (id, next) = (word % 256, word / 1024 * 4);
        Some(Entry { id, next })
    }

    /// The place of this capability among so many entries, the first of which is at this offset.
    #[tactic(auto, using(crate::proofs::Walks::capability_none, crate::proofs::Walks::capability_step))]
    fn capability_from(&self, id: u16, left: u16, offset: u16) -> Option<u16>
        ensures { result ≡ capability_from self.now.bytes.now id left offset }
    {
        if left == 0 {
            return None;
        }
        let entry = self.entry_at(offset)?;
        if entry.id == id {
            return Some(offset);
        }
        self.capability_from(id, left - 1, entry.next)
    }

    /// The offset of the capability of this ID, if one is shown. At most 48 entries of the list are looked at.
    pub fn capability(&self, id: u16) -> Option<u16>
        ensures { result ≡ capability_of self.now.bytes.now id }
    {
        let status = self.word(0x06)?;
        if status / 16 % 2 == 0 {
            return None;
        }
        let first = u16::from(self.byte(0x34)? / 4) * 4;
        self.capability_from(id, MOST, first)
    }

    /// The entry at an offset of the extended space. None has all bits clear or all set.
    fn extended_entry_at(&self, offset: u16) -> Option<Entry>
        ensures { result ≡ extended_entry_at self.now.bytes.now offset }
    {
        let header = self.long(offset)?;
        if offset < 0x100 || header == 0 || header == 0xffff_ffff {
            return None;
        }
        let id = (header % 0x1_0000) as u16;
        let next = (header / 0x40_0000 * 4) as u16;
        Some(Entry { id, next })
    }

    #[tactic(auto, using(crate::proofs::Walks::extended_none, crate::proofs::Walks::extended_step))]
    fn extended_from(&self, id: u16, left: u16, offset: u16) -> Option<u16>
        ensures { result ≡ extended_from self.now.bytes.now id left offset }
    {
        if left == 0 {
            return None;
        }
        let entry = self.extended_entry_at(offset)?;
        if entry.id == id {
            return Some(offset);
        }
        self.extended_from(id, left - 1, entry.next)
    }

    /// The offset of the extended capability of this ID, if one is shown. At most 960 entries of the list are looked at.
    pub fn extended_capability(&self, id: u16) -> Option<u16>
        ensures { result ≡ extended_of self.now.bytes.now id }
    {
        self.extended_from(id, MOST_EXTENDED, 0x100)
    }

    /// Is the extended space shown?
    pub fn has_extended(&self) -> bool
        ensures { result ≡ has_extended self.now.bytes.now }
    {
        self.bytes.len() > 0x100
    }

    /// What the function is, if its PCI Express capability is shown.
    pub fn port_type(&self) -> Option<PortType>
        ensures { result ≡ port_type_of self.now.bytes.now }
    {
        let offset = self.capability(0x10)?;
        let flags = self.word(offset.checked_add(2)?)?;
        Some(port_type_of_bits(flags / 16 % 16))
    }

    /// The number that a port has among those of its switch or root complex, if it is shown (PCIe 4.0, 7.5.3.6).
    pub fn port_number(&self) -> Option<u8>
        ensures { result ≡ port_number_of self.now.bytes.now }
    {
        let offset = self.capability(0x10)?;
        let capabilities = self.long(offset.checked_add(12)?)?;
        Some((capabilities / 0x100_0000) as u8)
    }
}
