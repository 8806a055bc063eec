//! Which domains own a function.

ghost use Rattle.std.specs.Prelude.{◌≡◌};
ghost use Rattle.attacks.specs.Owners.{has_nothing_to_keep, owners_count, owns_function};

use layout::Layout;
use platform::{DownstreamPort, EndpointFunction, domain_of};

/// A number that no domain has, the first behind theirs.
const NO_DOMAIN: u8 = 32;

/// Does the domain of this number own one of these functions?
fn owns_function(ports: &[DownstreamPort], functions: &[EndpointFunction], number: u8) -> bool
    ensures { result ≡ owns_function ports.now functions.now number }
{
    functions
        .iter()
        .any(|line| domain_of(ports, line.id) == number)
}

/// How many domains own a function.
pub fn owners_count(layout: &Layout) -> usize
    ensures { result ≡ owners_count layout.now }
{
    let (ports, functions) = (layout.ports(), layout.functions());
    (1..NO_DOMAIN)
        .filter(|number| owns_function(ports, functions, *number))
        .count()
}

/// Do fewer than two domains own a function?
pub fn has_nothing_to_keep(layout: &Layout) -> bool
    ensures { result ≡ has_nothing_to_keep layout.now }
{
    owners_count(layout) < 2
}
