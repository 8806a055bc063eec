//! What a domain starts from.

ghost use Rattle.std.specs.Prelude.{◌≡◌, ◌≤◌, ◌⊎◌, IfErr, IfOk, None, Some, SomeIff};
ghost use Rattle.layout.specs.Views.{share_of_owner};

use crate::fault::Fault;
use fab_types::DomainId;
use layout::{Layout, Start};
use std::alloc::Global;

/// The domain of this number, if it is 1 to 31.
fn domain_of(number: u32) -> Option<DomainId>
    ensures { SomeIff result ((1 ≤ number) × (number ≤ 31)) number }
{
    DomainId::new(u8::try_from(number).ok()?)
}

/// What the domain of this number starts from.
///
/// # Errors
/// `NoDomain` where it owns no port, and `NoMemory` where memory was refused.
pub fn start_of<'a>(alloc: Global, layout: &Layout, number: u32) -> Result<Start, Fault<'a>>
    ensures ok { IfOk result (λ share. share_of_owner layout.now number ≡ Some share) }
    ensures none { IfErr result (λ fault. (fault ≡ Fault.NoMemory) ⊎ ((fault ≡ Fault.NoDomain number) × (share_of_owner layout.now number ≡ None))) }
{
    // for the proof: each port is of a domain, 1 to 31
    let _ = layout.ports();
    let none = Fault::NoDomain { number };
    let Some(domain) = domain_of(number) else {
        return Err(none);
    };
    match layout.start(alloc, domain)? {
        Some(start) => Ok(start),
        None => Err(none),
    }
}
