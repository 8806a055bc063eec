//! The place of a domain, by an index.

ghost use Rattle.std.specs.Prelude.{◌≡◌, ◌<◌, IfSome, length};
ghost use Rattle.domains.specs.Indexes.{IsIndexOf};
ghost use Rattle.domains.specs.Domains.{IsHome, place_of, place_of_function};

use crate::places::{place_of, place_of_function};
use domain::Domain;
use fab_types::{Bdf, DomainId, Origin};
use outboxes::OriginIndex;
use platform::EndpointFunction;

fn note_functions(index: &mut OriginIndex, functions: &[EndpointFunction], domains: &[Domain])
    requires { IsIndexOf index.old domains.now }
    ensures { IsIndexOf index.new domains.now }
{
    for line in functions {
        if let Some(place) = place_of_function(domains, line.id) {
            index.note(Origin::Function(line.id), place);
        }
    }
}

fn note_hosts(index: &mut OriginIndex, domains: &[Domain])
    requires { IsIndexOf index.old domains.now }
    ensures { IsIndexOf index.new domains.now }
{
    for domain in domains {
        let number = domain.start().domain();
        if let Some(place) = place_of(domains, number) {
            index.note(Origin::Host(number), place);
        }
    }
}

/// An index of these domains by their numbers and by these functions.
pub(crate) fn index_of(functions: &[EndpointFunction], domains: &[Domain]) -> OriginIndex
    ensures { IsIndexOf result domains.now }
{
    let mut index = OriginIndex::new();
    note_functions(&mut index, functions, domains);
    note_hosts(&mut index, domains);
    index
}

/// The place of the domain with this number. Domains are searched only where the index has no place.
pub(crate) fn indexed_place(
    index: &OriginIndex,
    domains: &[Domain],
    number: DomainId,
) -> Option<usize>
    requires { IsIndexOf index.now domains.now }
    ensures value { result ≡ place_of domains.now number }
    ensures within { IfSome result (λ place. place < length domains.now) }
    ensures home { IfSome result (λ place. IsHome domains.now place number) }
{
    match index.place(Origin::Host(number)) {
        Some(place) => Some(place),
        None => place_of(domains, number),
    }
}

/// The place of the domain that this function is of. Domains are searched only where the index has no place.
pub(crate) fn indexed_home(index: &OriginIndex, domains: &[Domain], function: Bdf) -> Option<usize>
    requires { IsIndexOf index.now domains.now }
    ensures value { result ≡ place_of_function domains.now function }
    ensures within { IfSome result (λ place. place < length domains.now) }
{
    match index.place(Origin::Function(function)) {
        Some(place) => Some(place),
        None => place_of_function(domains, function),
    }
}
