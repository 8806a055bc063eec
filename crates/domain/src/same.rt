//! Equality of journals.

ghost use Rattle.std.specs.Prelude.{◌≡◌, ◌↔◌, IsTrue};

use crate::entry::Entry;
use domain_state::{same_access, same_bytes, same_parties, same_place};

/// Are the entries the same?
fn same_entry(one: &Entry, other: &Entry) -> bool
    ensures { IsTrue result ↔ (one.now ≡ other.now) }
{
    match (one, other) {
        (Entry::Submit(one, bytes), Entry::Submit(other, others)) => {
            *one == *other && same_bytes(bytes, others)
        }
        (Entry::Tick(one), Entry::Tick(other)) => *one == *other,
        (Entry::Mmio(one), Entry::Mmio(other)) => same_access(one, other),
        (Entry::Refuse(one), Entry::Refuse(other)) => *one == *other,
        (Entry::Carry(one), Entry::Carry(other)) => *one == *other,
        (Entry::Deliver(one), Entry::Deliver(other)) => *one == *other,
        (Entry::Alien(one, sender, bytes), Entry::Alien(other, another, others)) => {
            same_place(*one, *other) && same_parties(*sender, *another) && same_bytes(bytes, others)
        }
        _ => false,
    }
}

/// Are the journals the same, entry by entry?
pub(crate) fn same_journals(one: &[Entry], other: &[Entry]) -> bool
    ensures { IsTrue result ↔ (one.now ≡ other.now) }
{
    if one.len() != other.len() {
        return false;
    }
    for index in 0..one.len() {
        if !same_entry(&one[index], &other[index]) {
            return false;
        }
    }
    true
}
