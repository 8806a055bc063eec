//! The numbers that a domain has in flight, and the packets that stand anywhere.

ghost use Rattle.std.specs.Prelude.{◌≡◌, ◌<◌, ℕ, ◌+◌, ◌↔◌, IfOk, IsTrue, count_by, false, is_some, map, slice_index_or, slice_set, true};
ghost use Rattle.std.specs.List.{list_any};
ghost use Rattle.domain_state.specs.State.{item_at};
ghost use Rattle.thread_totals.specs.Balance.{HaveOnce};
ghost use Rattle.thread_totals.specs.Counts.{consumed_by, emitted_by};
ghost use Rattle.thread_totals.specs.Crossing.{AreCrossedOff, times_left};
ghost use Rattle.thread_totals.specs.Named.{is_made_by, is_named};

use crate::packet_name::PacketName;
use domain::{Domain, emissions_are_consumed_once};
use fab_types::{DomainId, NoMemory};
use std::alloc::Global;
use std::mem;

fn is_flying(domain: &Domain, number: u64) -> bool
    ensures { result ≡ is_some (item_at domain.now.state.flight number) }
{
    domain.bytes(number).is_some()
}

/// Of each number that a domain has given out, is its packet in flight?
pub(crate) fn flying(alloc: Global, domain: &Domain) -> Result<Vec<bool>, NoMemory>
    ensures { IfOk result (λ flying. flying.items ≡ map is_some domain.now.state.flight) }
{
    let mut flying = Vec::new(alloc);
    for number in 0..domain.made() {
        flying.push(is_flying(domain, number))?;
    }
    Ok(flying)
}

/// Crosses a number off. Was it still to be?
fn cross_one(flying: &mut Vec<bool>, number: u64) -> bool
    ensures was { result ≡ slice_index_or flying.old.items number false }
    ensures off { flying.new.items ≡ slice_set flying.old.items number false }
{
    match flying.get_mut(number as usize) {
        Some(is_flying) => mem::replace(is_flying, false),
        None => false,
    }
}

/// Crosses off the number of each packet of a domain among these, up to the first that was not to be. Was there none?
fn cross_off(flying: &mut Vec<bool>, domain: DomainId, names: &[PacketName]) -> bool
    ensures all { result ≡ true → AreCrossedOff domain names.now flying.old.items flying.new.items }
    ensures more { result ≡ false → (n : ℕ) × (times_left flying.old.items n < count_by (is_named domain n) names.now) }
{
    for name in names {
        if name.domain == domain && !cross_one(flying, name.number) {
            return false;
        }
    }
    true
}

/// Is a number left that wasn't crossed off?
fn has_left(flying: &[bool]) -> bool
    ensures { result ≡ list_any (λ is_flying. is_flying) flying.now }
{
    flying.iter().any(|is_flying| *is_flying)
}

/// Have the packets of a domain that stand anywhere the numbers that it has in flight, each once?
pub(crate) fn have_once(
    alloc: Global,
    domain: &Domain,
    names: &[PacketName],
) -> Result<bool, NoMemory>
    ensures exact { IfOk result (λ have. IsTrue have ↔ HaveOnce names.now domain.now) }
    ensures all { IfOk result (λ have. have ≡ true → emitted_by domain.now ≡ consumed_by domain.now + count_by (is_made_by domain.now.share.domain) names.now) }
{
    // for the proof: what an entry ended is no more in flight
    let _ = domain.journal();
    emissions_are_consumed_once();
    let mut flying = flying(alloc, domain)?;
    if !cross_off(&mut flying, domain.start().domain(), names) {
        return Ok(false);
    }
    Ok(!has_left(&flying))
}
