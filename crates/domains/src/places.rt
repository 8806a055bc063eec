//! Which domain a begin or a packet belongs to.

ghost use Rattle.std.specs.Prelude.{◌≡◌, ◌<◌, IfSome, length};
ghost use Rattle.domains.specs.Aliens.{owner_of_frame, owns_frame};
ghost use Rattle.domains.specs.Domains.{IsHome, place_of, place_of_function};

use domain::Domain;
use fab_types::{Bdf, DomainId};

/// The place of the domain with this number.
#[tactic(auto, unfolding(crate::specs::Domains::place_of))]
pub(crate) fn place_of(domains: &[Domain], number: DomainId) -> Option<usize>
    ensures value { result ≡ place_of domains.now number }
    ensures within { IfSome result (λ place. place < length domains.now) }
    ensures home { IfSome result (λ place. IsHome domains.now place number) }
{
    domains
        .iter()
        .position(|domain| domain.start().domain() == number)
}

/// The place of the domain that this function is of.
#[tactic(auto, unfolding(crate::specs::Domains::place_of_function))]
pub(crate) fn place_of_function(domains: &[Domain], function: Bdf) -> Option<usize>
    ensures value { result ≡ place_of_function domains.now function }
    ensures within { IfSome result (λ place. place < length domains.now) }
{
    domains
        .iter()
        .position(|domain| domain.start().owns_function(function))
}

fn owns_frame(domain: &Domain, page: u64) -> bool
    ensures { result ≡ owns_frame page domain.now }
{
    let mut frames = domain.start().frames().iter();
    frames.any(|frame| u64::from(*frame) == page)
}

/// The number of the domain that this frame of memory is of.
pub(crate) fn owner_of_frame(domains: &[Domain], page: u64) -> Option<DomainId>
    ensures { result ≡ owner_of_frame domains.now page }
{
    let mut domains = domains.iter();
    let owner = domains.find(|domain| owns_frame(domain, page))?;
    Some(owner.start().domain())
}
