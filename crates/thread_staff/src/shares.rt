//! What the layout gave each domain.

ghost use Rattle.std.specs.Prelude.{◌≡◌, IfOk, map};

use domain::Domain;
use fab_types::NoMemory;
use layout::Start;
use std::alloc::Global;

/// What the layout gave each of these domains.
pub fn starts_of(alloc: Global, domains: &[Domain]) -> Result<Vec<Start>, NoMemory>
    ensures { IfOk result (λ starts. starts.items ≡ map (λ d. d.share) domains.now) }
{
    let mut starts = Vec::with_capacity(alloc, domains.len())?;
    for domain in domains {
        starts.push_reserved(domain.start().try_clone(alloc)?);
    }
    Ok(starts)
}
