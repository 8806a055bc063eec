//! What became of the begins that a worker took out of a ring.

ghost use Rattle.std.specs.Prelude.{◌≡◌, ◌+◌, ◌↔◌, IsTrue, if◌then◌else◌, min, ◌^◌, ◌-◌};
ghost use Rattle.thread_totals.specs.Begins.{accepted_in, held_in, refused_in, ring_count, taken_in};
ghost use Rattle.thread_totals.specs.Counts.{capped};

use injector::BeginRing;

/// What a worker counted of a ring of begins.
#[derive(Clone, Copy, Debug, PartialEq, Eq)]
pub(crate) struct RingCount {
    /// How many begins were taken out of the ring.
    pub taken: u64,
    /// How many of these the domain accepted.
    pub accepted: u64,
    /// How many of these the domain refused.
    pub refused: u64,
    /// Does the worker still hold one?
    pub is_held: bool,
}

pub(crate) fn count_of(ring: &BeginRing) -> RingCount
    ensures count { result ≡ ring_count ring.now }
    ensures each { result.taken ≡ result.accepted + result.refused + (if result.is_held then 1 else 0) }
{
    let accepted = ring.accepted();
    let refused = ring.refused();
    let is_held = ring.holds_begin();
    let held = if is_held { 1 } else { 0 };
    RingCount {
        taken: accepted + refused + held,
        accepted,
        refused,
        is_held,
    }
}

/// How many begins were taken out of these rings. The count stops at what 64 bits hold.
pub(crate) fn taken_in(rings: &[RingCount]) -> u64
    ensures { result ≡ capped (taken_in rings.now) }
{
    let mut sum: u64 = 0;
    for ring in rings {
        sum = sum.saturating_add(ring.taken);
    }
    sum
}

/// How many of them were refused, likewise.
pub(crate) fn refused_in(rings: &[RingCount]) -> u64
    ensures { result ≡ capped (refused_in rings.now) }
{
    let mut sum: u64 = 0;
    for ring in rings {
        sum = sum.saturating_add(ring.refused);
    }
    sum
}

/// How many of them are held.
pub(crate) fn held_in(rings: &[RingCount]) -> u64
    ensures { result ≡ held_in rings.now }
{
    rings.iter().filter(|ring| ring.is_held).count() as u64
}

/// Were so many accepted of these rings?
pub(crate) fn are_accepted(begins: u64, rings: &[RingCount]) -> bool
    ensures { IsTrue result ↔ (begins ≡ accepted_in rings.now) }
{
    let mut left = begins;
    for ring in rings {
        match left.checked_sub(ring.accepted) {
            Some(rest) => left = rest,
            None => return false,
        }
    }
    left == 0
}
