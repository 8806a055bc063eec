//! Domains that threads share, each under a lock of its own.

ghost use Rattle.std.specs.Prelude.{◌≡◌, ◌<◌, IfOk, IfSome, IsSome, MatchOption, None, is_some, length, map, vec_len};
ghost use Rattle.thread_domains.specs.Locks.{place_of};

use domain::Domain;
use fab_types::{DomainId, NoMemory};
use std::alloc::Global;
use std::marker::Model;
use std::sync::Mutex;

/// The domains of a fabric, each under a lock of its own.
/// A lock bears its domain's number. Threads share the value by reference. A contract sees the list of the
/// numbers, which never changes.
#[derive(Drop)]
pub struct Locks {
    /// The number of each lock, apart from the domains: so looking for one touches no domain.
    numbers: Vec<DomainId>,
    domains: Vec<Mutex<Domain>>,
}

impl Model for Locks {
    ghost use Rattle.std.specs.Prelude.{◌≡◌, List, ℕ, vec_len};

    ghost Value = { List ℕ };

    ghost view = { λ l. l.numbers.items };

    ghost invariant = { λ l. vec_len l.numbers ≡ vec_len l.domains };
}

/// The place of this number.
#[tactic(auto, unfolding(crate::specs::Locks::place_of))]
fn place_of(numbers: &[DomainId], number: DomainId) -> Option<usize>
    ensures value { result ≡ place_of numbers.now number }
    ensures within { IfSome result (λ place. place < length numbers.now) }
{
    numbers.iter().position(|known| *known == number)
}

impl Locks {
    /// Each of these domains under a lock, in their order.
    /// A lock bears the number of its domain's share. It answers `NoMemory` where memory was refused; then the
    /// domains are let go.
    pub fn new(alloc: Global, domains: Vec<Domain>) -> Result<Locks, NoMemory>
        ensures { IfOk result (λ locks. locks ≡ map (λ d. d.share.domain) domains.items) }
    {
        let mut numbers = Vec::with_capacity(alloc, domains.len())?;
        let mut locked = Vec::with_capacity(alloc, domains.len())?;
        for domain in domains {
            numbers.push_reserved(domain.start().domain());
            locked.push_reserved(Mutex::new(domain));
        }
        Ok(Locks {
            numbers,
            domains: locked,
        })
    }

    /// Is there a lock of this number?
    pub fn has(&self, number: DomainId) -> bool
        ensures { result ≡ is_some (place_of self.now number) }
    {
        place_of(&self.numbers, number).is_some()
    }

    /// The lock of this number, if there is one.
    /// It is for calls that this crate has not: begins, and what reads a domain. Whoever has taken it and calls
    /// for the same domain here waits for itself, for ever.
    pub fn lock_of(&self, number: DomainId) -> Option<&Mutex<Domain>>
        ensures { MatchOption result (place_of self.now number ≡ None) (λ _. IsSome (place_of self.now number)) }
    {
        let place = place_of(&self.numbers, number)?;
        Some(&self.domains[place])
    }

    /// The domains without their locks, in the order of these.
    /// It can be called once no other thread has the value. It answers `NoMemory` where memory for the list was
    /// refused; then the domains are let go.
    pub fn into_domains(self, alloc: Global) -> Result<Vec<Domain>, NoMemory>
        ensures { IfOk result (λ domains. vec_len domains ≡ length self) }
    {
        let Locks {
            numbers: _,
            domains: locked,
        } = self;
        let mut domains = Vec::with_capacity(alloc, locked.len())?;
        for lock in locked {
            domains.push_reserved(lock.into_inner());
        }
        Ok(domains)
    }
}
