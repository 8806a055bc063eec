//! The bytes of a packet in flight, copied under its home's lock.

ghost use Rattle.std.specs.Prelude.{◌≡◌, IsNone, IsSome, MatchOption, None};
ghost use Rattle.thread_domains.specs.Locks.{AbsentThere, FlyingThere, place_of};

use crate::locks::Locks;
use arrayvec::ArrayVec;
use domain::{Domain, copied};
use frame_log::Frame;
use std::sync::Wait;

/// Copies what a domain that is lent has in flight under a packet's number, if it is the packet's home.
fn bytes_there(domain: &Domain, frame: &Frame) -> Option<ArrayVec<u8, 272>>
    ensures { MatchOption result (AbsentThere frame.now) (λ bytes. FlyingThere frame.now bytes.items) }
{
    // for the proof: the state is the replay of the journal
    let _ = domain.journal();
    if domain.start().domain() != frame.domain() {
        return None;
    }
    match domain.bytes(frame.number()) {
        Some(bytes) => Some(copied(bytes)),
        None => None,
    }
}

impl Locks {
    /// A copy of the bytes that a packet's home has in flight under its number.
    /// There is none where the home has none, or where there is no lock of its number. So the bytes can be
    /// given to another domain while no lock is held: no thread needs two at once. It takes no memory. It may
    /// have to wait for another thread; what is said holds if it returns.
    pub fn bytes_of<R: Wait>(&self, rt: &R, frame: &Frame) -> Option<ArrayVec<u8, 272>>
        ensures value { MatchOption result
            (IsSome (place_of self.now frame.now.domain) → AbsentThere frame.now)
            (λ bytes. FlyingThere frame.now bytes.items) }
        ensures no_lock { place_of self.now frame.now.domain ≡ None → IsNone result }
    {
        let Some(lock) = self.lock_of(frame.domain()) else {
            return None;
        };
        let domain = lock.lock(rt);
        bytes_there(&domain, frame)
    }
}
