//! Equality of what a journal's entry names.

ghost use Rattle.std.specs.Prelude.{◌≡◌, ◌↔◌, IsTrue};

use fab_types::{HostAccess, Operation, PacketBytes, Parties, Place};

/// Are the bytes the same?
pub fn same_bytes(one: &PacketBytes, other: &PacketBytes) -> bool
    ensures { IsTrue result ↔ (one.now ≡ other.now) }
{
    one == other
}

/// Are the places the same?
pub fn same_place(one: Place, other: Place) -> bool
    ensures { IsTrue result ↔ (one ≡ other) }
{
    one == other
}

/// Are sender and addressee the same?
pub fn same_parties(one: Parties, other: Parties) -> bool
    ensures { IsTrue result ↔ (one ≡ other) }
{
    one == other
}

fn same_operation(one: &Operation, other: &Operation) -> bool
    ensures { IsTrue result ↔ (one.now ≡ other.now) }
{
    match (one, other) {
        (Operation::Read(one), Operation::Read(other)) => *one == *other,
        (Operation::Write(one), Operation::Write(other)) => same_bytes(one, other),
        _ => false,
    }
}

/// Are the accesses the same?
pub fn same_access(one: &HostAccess, other: &HostAccess) -> bool
    ensures { IsTrue result ↔ (one.now ≡ other.now) }
{
    one.function == other.function
        && one.offset == other.offset
        && same_operation(&one.operation, &other.operation)
}
