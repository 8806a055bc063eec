//! What becomes of a packet at a port.

ghost use Rattle.std.specs.Prelude.{◌≡◌, ◌≤◌, ℕ, None, IfSome, length};
ghost use Rattle.bridge.specs.Routes.{target_of, route_of};
ghost use Rattle.acs.specs.Vetting.{verdict_of};
ghost use Rattle.port.specs.Courses.{failed_report, verdict_after, led, is_posted, report_elsewhere, report_of, reported_by, reported_from, returned, stopped, stopped_answer, up_by, down_by, down_lane, routed, tested, course_of, IsWithin};

use crate::config::lane_to;
use crate::port::Port;
use acs::{Verdict, redirect, requester_of, vet};
use bridge::{Bridge, Route, Target};
use fab_types::{Answerer, Bdf, Check, Class, Head, Parties, Violation};
use platform::{DownstreamPort, id_below};

/// What becomes of a packet that came into a port.
#[derive(Clone, Copy, Debug, PartialEq, Eq)]
pub enum Forwarding {
    /// It goes down this lane of the switch.
    /// Lane 0 leads out of the upstream port, then come the downstream ports.
    To(usize),
    /// The domain that made it refuses it at this port.
    /// A violation of ACS is reported (PCIe 4.0, 6.12.4).
    Stop(Option<Violation>),
    /// The port has no case for it.
    NoCase,
}

fn is_posted(class: Class) -> bool
    ensures { result ≡ is_posted class }
{
    match class {
        Class::Posted => true,
        Class::NonPosted => false,
        Class::Completion => false,
    }
}

fn reported_by(
    line: &DownstreamPort,
    head: &Head,
    sender: Bdf,
    check: Option<Check>,
) -> Option<Violation>
    ensures { result ≡ reported_by line.now head.now sender check }
{
    let check = check?;
    let requester = requester_of(&head.header)?;
    Some(Violation {
        port: line.id,
        check,
        sender,
        requester,
        posted: is_posted(head.cost.class),
    })
}

/// The packet is stopped, if this is the first port above its sender.
fn stopped(line: &DownstreamPort, head: &Head, check: Option<Check>) -> Forwarding
    ensures value { result ≡ stopped line.now head.now check }
    ensures lane { (most : ℕ) → IsWithin most result }
{
    match head.parties {
        Parties::Upward(function) => {
            if function == id_below(line) {
                Forwarding::Stop(reported_by(line, head, function, check))
            } else {
                Forwarding::NoCase
            }
        }
        Parties::Downward(_) => Forwarding::NoCase,
        Parties::Answer(..) => Forwarding::NoCase,
    }
}

/// The completion is stopped, if this is the first port above the function that made it.
fn stopped_answer(line: &DownstreamPort, answerer: Answerer) -> Forwarding
    ensures value { result ≡ stopped_answer line.now answerer }
    ensures lane { (most : ℕ) → IsWithin most result }
{
    match answerer {
        Answerer::Function(maker) => {
            if maker == id_below(line) {
                Forwarding::Stop(None)
            } else {
                Forwarding::NoCase
            }
        }
        Answerer::Port => Forwarding::NoCase,
        Answerer::Host => Forwarding::NoCase,
    }
}

/// What came up and would have to go down again the same way is stopped.
fn returned(line: &DownstreamPort, head: &Head) -> Forwarding
    ensures value { result ≡ returned line.now head.now }
    ensures lane { (most : ℕ) → IsWithin most result }
{
    match head.parties {
        Parties::Upward(_) => stopped(line, head, None),
        Parties::Downward(_) => Forwarding::NoCase,
        Parties::Answer(answerer, _) => stopped_answer(line, answerer),
    }
}

fn reported_from(line: &DownstreamPort, head: &Head, check: Check) -> Option<Violation>
    ensures { result ≡ reported_from line.now head.now check head.now.parties }
{
    match head.parties {
        Parties::Upward(function) => reported_by(line, head, function, Some(check)),
        Parties::Downward(_) => None,
        Parties::Answer(..) => None,
    }
}

fn failed_report(line: &DownstreamPort, head: &Head, verdict: Verdict) -> Option<Violation>
    ensures { result ≡ failed_report line.now head.now verdict }
{
    match verdict {
        Verdict::Violation(check) => reported_from(line, head, check),
        Verdict::Pass => None,
    }
}

fn verdict_after(verdict: Verdict, redirected: Result<Route, Verdict>) -> Verdict
    ensures { result ≡ verdict_after verdict redirected }
{
    match verdict {
        Verdict::Violation(_) => verdict,
        Verdict::Pass => match redirected {
            Ok(_) => Verdict::Pass,
            Err(failed) => failed,
        },
    }
}

fn down_lane(lane: Option<usize>) -> Forwarding
    ensures value { result ≡ down_lane lane }
    ensures lane { (most : ℕ) → IfSome lane (λ l. l ≤ most) → IsWithin most result }
{
    match lane {
        Some(lane) => Forwarding::To(lane),
        None => Forwarding::NoCase,
    }
}

impl Port {
    fn up_by(&self, line: &DownstreamPort, head: &Head, route: Route) -> Forwarding
        ensures value { result ≡ up_by self.now.config line.now head.now route }
        ensures lane { IsWithin (length self.now.config.exits) result }
    {
        match route {
            Route::Up => Forwarding::To(0),
            Route::Port(other) => down_lane(lane_to(&self.exits, other)),
            Route::OwnEgress => returned(line, head),
            Route::Nobody => Forwarding::NoCase,
        }
    }

    fn down_by(&self, route: Route) -> Forwarding
        ensures value { result ≡ down_by self.now.config.exits route }
        ensures lane { IsWithin (length self.now.config.exits) result }
    {
        match route {
            Route::Port(other) => down_lane(lane_to(&self.exits, other)),
            Route::Up | Route::OwnEgress | Route::Nobody => Forwarding::NoCase,
        }
    }

    fn led(
        &self,
        line: &DownstreamPort,
        head: &Head,
        redirected: Result<Route, Verdict>,
    ) -> Forwarding
        ensures value { result ≡ led self.now.config line.now head.now redirected }
        ensures lane { IsWithin (length self.now.config.exits) result }
    {
        match redirected {
            Ok(route) => self.up_by(line, head, route),
            Err(Verdict::Pass) => stopped(line, head, None),
            Err(Verdict::Violation(check)) => stopped(line, head, Some(check)),
        }
    }

    fn routed(&self, bridge: &Bridge, line: &DownstreamPort, head: &Head) -> Forwarding
        ensures value { result ≡ routed bridge.now self.now.config line.now head.now (target_of head.now.header) }
        ensures lane { IsWithin (length self.now.config.exits) result }
    {
        match Target::of(&head.header) {
            None => stopped(line, head, None),
            Some(_) => {
                let route = bridge.route(self.id, &head.header);
                self.led(line, head, redirect(line, route, &head.header))
            }
        }
    }

    fn tested(&self, bridge: &Bridge, line: &DownstreamPort, head: &Head) -> Forwarding
        ensures value { result ≡ tested bridge.now self.now.config line.now head.now (verdict_of line.now head.now.header) }
        ensures lane { IsWithin (length self.now.config.exits) result }
    {
        match vet(line, &head.header) {
            Verdict::Violation(check) => stopped(line, head, Some(check)),
            Verdict::Pass => self.routed(bridge, line, head),
        }
    }

    /// What becomes of a packet with this head that came into the port.
    ///
    /// - Up through a downstream port: what fails an ACS test, is malformed, or is a request of a kind that no
    ///   port takes is stopped, if its sender is the function below; the rest goes by its route and the port's
    ///   redirections (PCIe 4.0, 6.12.1.1).
    /// - Down through the upstream port: it goes by its route alone.
    pub fn course(&self, bridge: &Bridge, head: &Head) -> Forwarding
        ensures value { result ≡ course_of bridge.now self.now.config head.now }
        ensures lane { IsWithin (length self.now.config.exits) result }
    {
        match &self.line {
            Some(line) => self.tested(bridge, line, head),
            None => self.down_by(bridge.route(self.id, &head.header)),
        }
    }

    /// What the port reports, where it isn't the first port above the sender.
    /// The packet has this head, and is refused here. A request by a function that fails an ACS test of this
    /// port is a violation (PCIe 4.0, 6.12.1.1). An upstream port tests nothing.
    pub fn report_elsewhere(&self, bridge: &Bridge, head: &Head) -> Option<Violation>
        ensures { result ≡ report_elsewhere bridge.now self.now.config head.now }
    {
        match &self.line {
            Some(line) => {
                let route = bridge.route(self.id, &head.header);
                let redirected = redirect(line, route, &head.header);
                failed_report(
                    line,
                    head,
                    verdict_after(vet(line, &head.header), redirected),
                )
            }
            None => None,
        }
    }
}
