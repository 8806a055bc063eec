//! The redirection of routes at a downstream port.

ghost use Rattle.std.specs.Prelude.{◌≡◌};
ghost use Rattle.acs.specs.Vetting.{is_request};
ghost use Rattle.acs.specs.Redirection.{is_to_port, is_to_own_egress, is_strict_completion, is_let_through, is_peer_request, request_goes_up, is_blocked, completion_goes_up, own_goes_up, goes_up, redirected};

use crate::vetting::{Verdict, requester_of};
use bridge::Route;
use fab_types::{Check, Header};
use platform::DownstreamPort;

fn is_to_port(route: &Route) -> bool
    ensures { result ≡ is_to_port route.now }
{
    match route {
        Route::Up => false,
        Route::Port(_) => true,
        Route::OwnEgress => false,
        Route::Nobody => false,
    }
}

fn is_to_own_egress(route: &Route) -> bool
    ensures { result ≡ is_to_own_egress route.now }
{
    match route {
        Route::Up => false,
        Route::Port(_) => false,
        Route::OwnEgress => true,
        Route::Nobody => false,
    }
}

fn is_request(header: &Header) -> bool
    ensures { result ≡ is_request header.now }
{
    requester_of(header).is_some()
}

/// Is it of a completion with Relaxed Ordering clear? One that has it set isn't redirected (PCIe 4.0, 6.12.5). In a queue it
/// lets no packet pass another.
fn is_strict_completion(header: &Header) -> bool
    ensures { result ≡ is_strict_completion header.now }
{
    match header {
        Header::Malformed => false,
        Header::Memory { .. } => false,
        Header::OtherRequest { .. } => false,
        Header::Completion {
            relaxed_ordering,
            ..
        } => !*relaxed_ordering,
    }
}

fn is_let_through(port: &DownstreamPort, route: &Route) -> bool
    ensures { result ≡ is_let_through port.now route.now }
{
    match route {
        Route::Up => false,
        Route::Port(other) => port.lets_through(*other),
        Route::OwnEgress => false,
        Route::Nobody => false,
    }
}

/// Is it a request for another port of the switch that may not go there directly?
fn is_peer_request(port: &DownstreamPort, route: &Route, header: &Header) -> bool
    ensures { result ≡ is_peer_request port.now route.now header.now }
{
    is_to_port(route) && is_request(header) && !is_let_through(port, route)
}

fn request_goes_up(port: &DownstreamPort, route: &Route, header: &Header) -> bool
    ensures { result ≡ request_goes_up port.now route.now header.now }
{
    port.controls.redirects_requests() && is_peer_request(port, route, header)
}

fn is_blocked(port: &DownstreamPort, route: &Route, header: &Header) -> bool
    ensures { result ≡ is_blocked port.now route.now header.now }
{
    port.controls.controls_egress()
        && !port.controls.redirects_requests()
        && is_peer_request(port, route, header)
}

fn completion_goes_up(port: &DownstreamPort, route: &Route, header: &Header) -> bool
    ensures { result ≡ completion_goes_up port.now route.now header.now }
{
    port.controls.redirects_completions() && is_to_port(route) && is_strict_completion(header)
}

fn own_goes_up(port: &DownstreamPort, route: &Route) -> bool
    ensures { result ≡ own_goes_up port.now route.now }
{
    port.controls.forwards_upstream() && is_to_own_egress(route)
}

/// Do the port's controls send the packet up in place of this route?
fn goes_up(port: &DownstreamPort, route: &Route, header: &Header) -> bool
    ensures { result ≡ goes_up port.now route.now header.now }
{
    request_goes_up(port, route, header)
        || completion_goes_up(port, route, header)
        || own_goes_up(port, route)
}

/// Where a packet goes that came up to a downstream port (PCIe 4.0, 6.12.1.1).
/// It goes by this route, unless a control that is set there sends it up:
///
/// - P2P Request Redirect: a request for another port of the switch, unless P2P Egress Control is set and the
///   vector's bit for that port is 0 (PCIe 4.0, 6.12.3).
/// - P2P Completion Redirect: a completion for another port of the switch with Relaxed Ordering clear (PCIe
///   4.0, 6.12.5).
/// - Upstream Forwarding: every packet that is for the port's own egress.
///
/// # Errors
///
/// A violation of P2P Egress Control: a request for another port of the switch for which the vector's bit is 1,
/// where requests aren't redirected.
pub fn redirect(port: &DownstreamPort, route: Route, header: &Header) -> Result<Route, Verdict>
    ensures { result ≡ redirected port.now route header.now }
{
    if is_blocked(port, &route, header) {
        return Err(Verdict::Violation(Check::EgressControl));
    }
    if goes_up(port, &route, header) {
        Ok(Route::Up)
    } else {
        Ok(route)
    }
}
