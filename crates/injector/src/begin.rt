//! What an injector asks of a domain, and how its begins are numbered.

use arrayvec::ArrayVec;
use fab_types::{Bdf, HostAccess};
use rtrb::Protocol;

/// What an injector asks of a domain, with all the inputs of the call. A packet's bytes lie in the value itself, so that
/// asking takes no memory.
#[derive(Drop)]
pub enum Ask {
    /// This function submits these bytes.
    Submit(Bdf, ArrayVec<u8, 272>),
    /// This function's program has a tick.
    Tick(Bdf),
    /// The domain's host asks this of a register page.
    Mmio(HostAccess),
}

/// A begin on its way to the worker that serves it.
#[derive(Drop)]
pub struct Begin {
    /// How many begins went into the ring before it.
    pub number: u64,
    /// What is asked of the domain.
    pub what: Ask,
}

/// The n-th begin of a ring bears the number n, from 0. No begin bears the last number that there is.
#[derive(Clone, Copy)]
pub struct Numbered;

impl Protocol<Begin> for Numbered {
    ghost use Rattle.std.specs.Prelude.{◌≡◌, ◌+◌, ◌<◌, ◌^◌, length};

    ghost allows = { λ before begin. (begin.number ≡ length before) × (length before + 1 < 2 ^ 64) };
}
