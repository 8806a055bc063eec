//! What the first port of a function does with what the function sends.

ghost use Rattle.std.specs.Prelude.{◌≡◌, ℕ, true};
ghost use Rattle.tlp_view.specs.Kinds.{has_address};
ghost use Rattle.request_handling.specs.Fates.{fails_egress, fails_source, fails_translation, goes_to, is_blocked_from, is_untranslated, packet_fate, returns_completion, returns_to_sender, stopped};

use crate::answers::address_of;
use fab_types::{AddressType, Bdf, Class, Status};
use layout::Start;
use platform::{DownstreamPort, holder_beside};
use tlp_view::TlpView;

/// What the first port of a function does with what that sends.
/// The ACS tests are those of PCIe 4.0, 6.12.1.1; a violation is answered as in 6.12.4.
#[derive(Clone, Copy, Debug, PartialEq, Eq)]
pub enum Fate {
    /// It is discarded.
    Vanish,
    /// It is answered by a completion of this status.
    Refused(Status),
    /// It goes on to the host.
    ToHost,
    /// It goes directly to this function.
    /// That is below another port of a switch that it comes to.
    Direct(Bdf),
}

fn stopped(status: Status, class: Class) -> Fate
    ensures { result ≡ stopped status class }
{
    match class {
        Class::NonPosted => Fate::Refused(status),
        Class::Posted | Class::Completion => Fate::Vanish,
    }
}

pub(crate) fn is_untranslated(address_type: AddressType) -> bool
    ensures { result ≡ is_untranslated address_type }
{
    matches!(address_type, AddressType::Untranslated)
}

fn fails_source(port: &DownstreamPort, view: &TlpView) -> bool
    ensures { result ≡ fails_source port.now view.now }
{
    port.controls.validates_source() && !port.holds_bus(view.requester().bus())
}

fn fails_translation(port: &DownstreamPort, view: &TlpView) -> bool
    ensures { result ≡ fails_translation port.now view.now }
{
    match view.at() {
        Some(address_type) => {
            port.controls.blocks_translated() && !is_untranslated(address_type)
        }
        None => false,
    }
}

fn returns_to_sender(port: &DownstreamPort, view: &TlpView) -> bool
    requires { has_address (view.now).kind ≡ true }
    ensures { result ≡ returns_to_sender port.now view.now }
{
    !port.controls.forwards_upstream() && port.holds_address(address_of(view))
}

pub(crate) fn returns_completion(port: &DownstreamPort, view: &TlpView) -> bool
    ensures { result ≡ returns_completion port.now view.now }
{
    !port.controls.forwards_upstream() && port.holds_bus(view.requester().bus())
}

fn is_blocked_from(port: &DownstreamPort, other: Option<DownstreamPort>) -> bool
    ensures { result ≡ is_blocked_from port.now other }
{
    match other {
        Some(other) => !port.lets_through(other.id),
        None => false,
    }
}

/// Is it for another port of the switch, to which the port's vector lets no request through, and isn't redirected?
fn fails_egress(ports: &[DownstreamPort], port: &DownstreamPort, view: &TlpView) -> bool
    requires { has_address (view.now).kind ≡ true }
    ensures { result ≡ fails_egress ports.now port.now view.now }
{
    let address = address_of(view);
    port.controls.controls_egress()
        && !port.controls.redirects_requests()
        && !port.holds_address(address)
        && is_blocked_from(port, holder_beside(ports, port, address))
}

fn goes_to(function: Option<Bdf>) -> Fate
    ensures { result ≡ goes_to function }
{
    match function {
        Some(function) => Fate::Direct(function),
        None => Fate::ToHost,
    }
}

pub(crate) fn packet_fate(
    start: &Start,
    function: Bdf,
    port: &DownstreamPort,
    view: &TlpView,
) -> Fate
    ensures value { result ≡ packet_fate start.now.ports function port.now view.now }
    ensures addressed { result ≡ Fate.ToHost → has_address (view.now).kind ≡ true }
    ensures direct { (g : ℕ) → result ≡ Fate.Direct g → has_address (view.now).kind ≡ true }
{
    let class = view.class();
    if fails_source(port, view) || fails_translation(port, view) {
        stopped(Status::CA, class)
    } else if !view.kind().has_address() || returns_to_sender(port, view) {
        stopped(Status::UR, class)
    } else if fails_egress(start.ports(), port, view) {
        stopped(Status::CA, class)
    } else {
        goes_to(start.direct_to(function, address_of(view)))
    }
}
