//! Who sends packets.

ghost use Rattle.std.specs.Prelude.{◌≡◌};
ghost use Rattle.fab_types.specs.Origins.{origin_id, same_origin};

use crate::id::{Bdf, DomainId};

/// Where a domain's packets come from: one of its functions, or its host.
#[derive(Clone, Copy, Debug, PartialEq, Eq, PartialOrd, Ord, Hash)]
pub enum Origin {
    /// The function of this ID.
    Function(Bdf),
    /// The host of this domain.
    Host(DomainId),
}

impl Origin {
    /// The ID under which it makes requests: the function's, or that of the domain's host.
    pub fn id(self) -> Bdf
        ensures { result ≡ origin_id self }
    {
        match self {
            Origin::Function(function) => function,
            Origin::Host(domain) => domain.host(),
        }
    }
}

/// Are both the same function, or hosts of the same domain?
pub fn same_origin(one: Origin, other: Origin) -> bool
    ensures { result ≡ same_origin one other }
{
    match one {
        Origin::Function(f) => match other {
            Origin::Function(g) => f == g,
            Origin::Host(_) => false,
        },
        Origin::Host(d) => match other {
            Origin::Function(_) => false,
            Origin::Host(e) => d == e,
        },
    }
}
