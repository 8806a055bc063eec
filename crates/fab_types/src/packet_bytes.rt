//! Bytes of packets.

ghost use Rattle.std.specs.Prelude.{◌≡◌, ◌≤◌, ◌<◌, ◌+◌, ◌^◌, ◌++◌, IfOk, IfSome, IsOk, IsSome, length, nat_eq};
ghost use Rattle.std.specs.Cmp.{partial_equiv_from_equiv};
ghost use Rattle.std.specs.Cmp.Lexicographic.{nat_list_eq_equiv, pointwise};

use crate::faults::memory::NoMemory;
use arrayvec::ArrayVec;
use std::alloc::Global;
use std::fmt;
use std::marker::Model;
use std::sync::Arc;

/// How many bytes stand in the value itself: a header of 4 DW, or one of 3 DW with a payload of one.
const SHORT: usize = 16;

/// Where the bytes stand. A short packet takes no memory of its own.
#[derive(Drop)]
enum Kept {
    Short(ArrayVec<u8, SHORT>),
    /// In a piece of memory of their own.
    Long(Vec<u8>),
    /// In one that all clones share. A second piece of memory counts these.
    Shared(Arc<Vec<u8>>),
}

/// The bytes of a packet, header and payload. A contract sees the list.
#[derive(Drop)]
pub struct PacketBytes {
    kept: Kept,
}

impl Model for PacketBytes {
    ghost use Rattle.std.specs.Prelude.{List, ℕ};

    ghost Value = { List ℕ };

    ghost use Rattle.fab_types.specs.PacketBytes.{kept_bytes};

    ghost view = { λ p. kept_bytes p.kept };
}

impl PacketBytes {
    /// A copy in the value itself, if the bytes fit.
    fn short_copy(bytes: &[u8]) -> Option<PacketBytes>
        ensures value { IfSome result (λ copy. copy ≡ bytes.now) }
        ensures fits { length bytes.now ≤ 16 → IsSome result }
    {
        let mut copy = ArrayVec::new();
        match copy.try_extend_from_slice(bytes) {
            Ok(()) => Some(PacketBytes {
                kept: Kept::Short(copy),
            }),
            Err(_) => None,
        }
    }

    /// These bytes, for clones to share.
    fn shared(items: Vec<u8>) -> Result<PacketBytes, NoMemory>
        ensures { IfOk result (λ bytes. bytes ≡ items.items) }
    {
        let alloc = *items.allocator();
        Ok(PacketBytes {
            kept: Kept::Shared(Arc::new(alloc, items)?),
        })
    }

    /// A copy of these bytes. It answers `NoMemory` where memory was refused; at most 16 bytes ask for none.
    pub fn copy_of(alloc: Global, bytes: &[u8]) -> Result<PacketBytes, NoMemory>
        ensures value { IfOk result (λ copy. copy ≡ bytes.now) }
        ensures short { length bytes.now ≤ 16 → IsOk result }
    {
        match PacketBytes::short_copy(bytes) {
            Some(copy) => Ok(copy),
            None => Ok(PacketBytes {
                kept: Kept::Long(Vec::from_slice(alloc, bytes)?),
            }),
        }
    }

    /// The same, whose clones share it.
    pub fn shared_copy(alloc: Global, bytes: &[u8]) -> Result<PacketBytes, NoMemory>
        ensures value { IfOk result (λ copy. copy ≡ bytes.now) }
        ensures short { length bytes.now ≤ 16 → IsOk result }
    {
        match PacketBytes::short_copy(bytes) {
            Some(copy) => Ok(copy),
            None => PacketBytes::shared(Vec::from_slice(alloc, bytes)?),
        }
    }

    /// A header and its payload in the value itself, if they fit.
    fn short_joined(header: &[u8], payload: &[u8]) -> Option<PacketBytes>
        ensures value { IfSome result (λ joined. joined ≡ header.now ++ payload.now) }
        ensures fits { length header.now + length payload.now ≤ 16 → IsSome result }
    {
        let mut joined = ArrayVec::new();
        joined.try_extend_from_slice(header).ok()?;
        joined.try_extend_from_slice(payload).ok()?;
        Some(PacketBytes {
            kept: Kept::Short(joined),
        })
    }

    /// A header and its payload in a piece of memory of their own.
    fn long_joined(alloc: Global, header: &[u8], payload: &[u8]) -> Result<PacketBytes, NoMemory>
        requires { length header.now + length payload.now < 2 ^ 63 }
        ensures { IfOk result (λ joined. joined ≡ header.now ++ payload.now) }
    {
        let mut joined = Vec::with_capacity(alloc, header.len() + payload.len())?;
        joined.extend_from_slice(header)?;
        joined.extend_from_slice(payload)?;
        Ok(PacketBytes {
            kept: Kept::Long(joined),
        })
    }

    /// A header and the payload after it. It answers `NoMemory` where memory was refused; at most 16 bytes ask for none.
    pub fn joined(alloc: Global, header: &[u8], payload: &[u8]) -> Result<PacketBytes, NoMemory>
        requires { length header.now + length payload.now < 2 ^ 63 }
        ensures value { IfOk result (λ joined. joined ≡ header.now ++ payload.now) }
        ensures short { length header.now + length payload.now ≤ 16 → IsOk result }
    {
        match PacketBytes::short_joined(header, payload) {
            Some(joined) => Ok(joined),
            None => PacketBytes::long_joined(alloc, header, payload),
        }
    }

    /// These bytes, which clones share. It answers `NoMemory` where memory was refused; at most 16 bytes ask for none.
    pub fn from_vec(items: Vec<u8>) -> Result<PacketBytes, NoMemory>
        ensures value { IfOk result (λ bytes. bytes ≡ items.items) }
        ensures short { length items.items ≤ 16 → IsOk result }
    {
        match PacketBytes::short_copy(items.as_slice()) {
            Some(copy) => Ok(copy),
            None => PacketBytes::shared(items),
        }
    }

    /// The same bytes once more. Where they are shared that takes no memory, else it is a copy of them, and it answers
    /// `NoMemory` where memory was refused.
    pub fn try_clone(&self, alloc: Global) -> Result<PacketBytes, NoMemory>
        ensures { IfOk result (λ clone. clone ≡ self.now) }
    {
        match &self.kept {
            Kept::Shared(items) => Ok(PacketBytes {
                kept: Kept::Shared(Arc::try_clone(items)?),
            }),
            Kept::Short(_) | Kept::Long(_) => PacketBytes::copy_of(alloc, self.as_slice()),
        }
    }

    /// Lends the bytes.
    pub fn as_slice(&self) -> &[u8]
        ensures { result.now ≡ self.now }
    {
        match &self.kept {
            Kept::Short(items) => items.as_slice(),
            Kept::Long(items) => items.as_slice(),
            Kept::Shared(items) => items.as_slice(),
        }
    }
}

impl fmt::Debug for PacketBytes {
    fn fmt<W: fmt::Write>(&self, f: &mut fmt::Formatter<W>) -> fmt::Result {
        fmt::Debug::fmt(self.as_slice(), f)
    }
}

impl PartialEq for PacketBytes {
    ghost eq = { λ a b. pointwise nat_eq a b };

    ghost laws = { partial_equiv_from_equiv nat_list_eq_equiv };

    fn eq(&self, other: &PacketBytes) -> bool {
        self.as_slice() == other.as_slice()
    }
}

impl Eq for PacketBytes {
    ghost laws = { nat_list_eq_equiv };
}
