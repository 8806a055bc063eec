//! The domains of a layout at their start.

ghost use Rattle.std.specs.Prelude.{◌≡◌, IfOk, option_map};
ghost use Rattle.layout.specs.Views.{share_of_owner};
ghost use Rattle.domains.specs.Domains.{fresh, starting_domains};

use domain::Domain;
use fab_types::{DomainId, NoMemory};
use frame_log::Log;
use layout::Layout;
use std::alloc::Global;
use std::sync::Arc;

/// The domain of this number at its start, if it owns a port.
fn fresh(
    alloc: Global,
    layout: &Layout,
    number: DomainId,
    log: &Arc<Log>,
) -> Result<Option<Domain>, NoMemory>
    ensures { IfOk result (λ domain. domain ≡ option_map fresh (share_of_owner layout.now number)) }
{
    match layout.start(alloc, number)? {
        Some(start) => Ok(Some(Domain::new(alloc, &start, log.clone()?)?)),
        None => Ok(None),
    }
}

/// Each domain that owns a port, by rising number, at its start. They all write one log. It answers `NoMemory` where
/// memory was refused.
pub fn domains_of(alloc: Global, layout: &Layout) -> Result<Vec<Domain>, NoMemory>
    ensures { IfOk result (λ domains. domains.items ≡ starting_domains layout.now) }
{
    let log = Arc::new(alloc, Log::new(alloc)?)?;
    let mut domains = Vec::new(alloc);
    for number in 1..32 {
        let Some(number) = DomainId::new(number) else {
            unreachable!();
        };
        match fresh(alloc, layout, number, &log)? {
            Some(domain) => domains.push(domain)?,
            None => {}
        }
    }
    Ok(domains)
}
