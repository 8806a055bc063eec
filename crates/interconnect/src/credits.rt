//! The credits that a link begins with.

ghost use Rattle.std.specs.Prelude.{◌≡◌, ◌<◌};
ghost use Rattle.credit.specs.Limits.{MayStart, zero_counters};
ghost use Rattle.layout.specs.Views.{credits_of};
ghost use Rattle.interconnect.specs.Starts.{AreFew, counters_of, first_credits};

use credit::{Counter, Counters, Credits, Limits};
use fab_types::Bdf;
use layout::Layout;
use platform::CreditLimits;

fn credits_of(headers: u16, payload: u16) -> Credits
    requires headers { headers < 128 }
    requires payload { payload < 2048 }
    ensures { result ≡ record { headers = headers; payload = payload } }
{
    Credits {
        headers: Counter::new(headers),
        payload: Counter::new(payload),
    }
}

fn counters_of(limits: &CreditLimits) -> Limits
    requires { AreFew limits.now }
    ensures value { result ≡ counters_of limits.now }
    ensures start { MayStart result }
{
    Counters {
        posted: credits_of(limits.posted_headers, limits.posted_data),
        non_posted: credits_of(limits.non_posted_headers, limits.non_posted_data),
        completion: credits_of(limits.completion_headers, limits.completion_data),
    }
}

fn no_credits() -> Limits
    ensures value { result ≡ zero_counters }
    ensures start { MayStart result }
{
    Counters {
        posted: credits_of(0, 0),
        non_posted: credits_of(0, 0),
        completion: credits_of(0, 0),
    }
}

/// What each receiver of a link advertises at the start (PCIe 4.0, 2.6.1).
/// The link is that with this lower end. It advertises credits: of headers, and of payload in units of four DW.
/// Below a port without a link no credits are ever there.
pub fn first_credits(layout: &Layout, lower: Bdf) -> Limits
    ensures value { result ≡ first_credits (credits_of layout.now lower) }
    ensures start { MayStart result }
{
    // for the proof: what holds of every platform
    let _ = layout.ports();
    match layout.credits(lower) {
        Some(limits) => counters_of(&limits),
        None => no_credits(),
    }
}
