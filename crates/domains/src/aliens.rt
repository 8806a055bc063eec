//! Packets that are taken where their home has no case.

ghost use Rattle.std.specs.Prelude.{◌≡◌, ◌<◌, ◌≤◌, IfErr, IfOk, IfSome, None, OnErr, Some, is_some, length, option_copied, option_map};
ghost use Rattle.fab_types.specs.declared.origin.Origin.{Origin};
ghost use Rattle.domain.specs.declared.entry.Entry.TheVariants.{Alien};
ghost use Rattle.domains.specs.Aliens.{IsUntaken, aliened_at, answers, flown};
ghost use Rattle.domains.specs.Indexes.{place_of_origin};
ghost use Rattle.domains.specs.Domains.{made_at};

use crate::places::place_of;
use domain::{Domain, copied};
use fab_types::{DomainId, Parties, Place};
use frame_log::{Frame, FrameFault};

/// The bytes that its home has in flight under a packet's number.
fn flown(domains: &[Domain], domain: DomainId, number: u64) -> Option<&[u8]>
    ensures short { IfSome result (λ bytes. length bytes.now ≤ 272) }
    ensures value { option_copied result ≡ option_map (λ e. e.bytes) (flown domains.now domain number) }
{
    let home = place_of(domains, domain)?;
    domains[home].bytes(number)
}

/// The domain at this place of the list gets a packet of these bytes.
fn taken_at(
    domains: &mut [Domain],
    at: usize,
    place: Place,
    frame: Frame,
    bytes: &[u8],
) -> Result<Option<Frame>, FrameFault>
    requires { at < length domains.old }
    ensures ok { IfOk result (λ sent. made_at domains.old (Alien place frame.head.parties bytes.now) (Some at) ≡ Some (record { domains = domains.new; sent = sent })) }
    ensures fault { IfErr result (λ fault. IsUntaken (made_at domains.old (Alien place frame.head.parties bytes.now) (Some at)) frame fault) }
    ensures err { OnErr result (domains.new ≡ domains.old) }
    ensures places { (origin : Origin) → place_of_origin domains.new origin ≡ place_of_origin domains.old origin }
{
    let there = place;
    if !domains[at].has_alien(there, bytes) {
        return Err(FrameFault::Stray(frame));
    }
    domains[at].alien(place, frame, bytes)
}

/// The domain at this place of the list, if there is one, gets the packet.
/// It gets it with the bytes that its home has in flight.
pub(crate) fn alien_at(
    domains: &mut [Domain],
    at: Option<usize>,
    place: Place,
    frame: Frame,
) -> Result<Option<Frame>, FrameFault>
    requires { IfSome at (λ at. at < length domains.old) }
    ensures ok { IfOk result (λ sent. aliened_at domains.old at place frame ≡ Some (record { domains = domains.new; sent = sent })) }
    ensures fault { IfErr result (λ fault. IsUntaken (aliened_at domains.old at place frame) frame fault) }
    ensures err { OnErr result (domains.new ≡ domains.old) }
    ensures places { (origin : Origin) → place_of_origin domains.new origin ≡ place_of_origin domains.old origin }
{
    let Some(at) = at else {
        return Err(FrameFault::Stray(frame));
    };
    let Some(bytes) = flown(domains, frame.domain(), frame.number()) else {
        return Err(FrameFault::Stray(frame));
    };
    // a copy, for their home may be the domain that changes
    let bytes = copied(bytes);
    taken_at(domains, at, place, frame, bytes.as_slice())
}

/// Would the entry of a packet of these bytes, in the domain at this place of the list, emit another?
fn answers_at(domains: &[Domain], at: usize, place: Place, sender: Parties, bytes: &[u8]) -> bool
    requires { at < length domains.now }
    ensures { result ≡ answers (made_at domains.now (Alien place sender bytes.now) (Some at)) }
{
    domains[at].answers_alien(place, sender, bytes)
}

/// The same of a packet, with the bytes that its home has in flight.
pub(crate) fn answers_alien(
    domains: &[Domain],
    at: Option<usize>,
    place: Place,
    frame: &Frame,
) -> bool
    requires { IfSome at (λ at. at < length domains.now) }
    ensures { result ≡ answers (aliened_at domains.now at place frame.now) }
{
    let Some(at) = at else {
        return false;
    };
    match flown(domains, frame.domain(), frame.number()) {
        Some(bytes) => answers_at(domains, at, place, frame.head().parties, bytes),
        None => false,
    }
}

/// May it have that entry?
pub(crate) fn has_alien(domains: &[Domain], at: Option<usize>, place: Place, frame: &Frame) -> bool
    requires { IfSome at (λ at. at < length domains.now) }
    ensures { result ≡ is_some (aliened_at domains.now at place frame.now) }
{
    let Some(at) = at else {
        return false;
    };
    match flown(domains, frame.domain(), frame.number()) {
        Some(bytes) => domains[at].has_alien(place, bytes),
        None => false,
    }
}
