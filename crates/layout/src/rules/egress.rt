//! What is wrong with an `egress` line.

ghost use Rattle.std.specs.Prelude.{◌≡◌};
ghost use Rattle.layout.specs.Rules.{egress_fault, has_foreign_bit, is_first_version, is_let_abroad, lets_abroad, takes_vector};

use crate::additions::with_vector;
use crate::layout::Layout;
use fab_types::LayoutCause;
use layout_line::EgressText;
use platform::{
    DownstreamPort, EndpointFunction, LayoutVersion, id_below, is_function, is_on_bus, port_at,
};

fn is_let_abroad(
    functions: &[EndpointFunction],
    port: &DownstreamPort,
    other: &DownstreamPort,
) -> bool
    ensures { result ≡ is_let_abroad functions.now port.now other.now }
{
    is_on_bus(u16::from(port.id.id().bus()), other)
        && other.id != port.id
        && port.lets_through(other.id)
        && !(other.owner == port.owner && is_function(functions, id_below(other)))
}

fn lets_abroad(
    functions: &[EndpointFunction],
    ports: &[DownstreamPort],
    port: &DownstreamPort,
) -> bool
    ensures { result ≡ lets_abroad functions.now ports.now port.now }
{
    ports
        .iter()
        .any(|other| is_let_abroad(functions, port, other))
}

#[tactic(auto, unfolding(crate::specs::Rules::has_foreign_bit))]
fn has_foreign_bit(layout: &Layout, egress: &EgressText) -> bool
    ensures { result ≡ has_foreign_bit layout.now egress.now }
{
    layout.ports().iter().any(|port| {
        port.id.id() == egress.port
            && lets_abroad(
                layout.functions(),
                layout.ports(),
                &with_vector(egress, port),
            )
    })
}

fn is_first_version(version: LayoutVersion) -> bool
    ensures { result ≡ is_first_version version }
{
    match version {
        LayoutVersion::One => true,
        LayoutVersion::Two => false,
    }
}

fn takes_vector(port: Option<DownstreamPort>) -> bool
    ensures { result ≡ takes_vector port }
{
    match port {
        Some(port) => port.controls.controls_egress() && port.egress_vector.is_none(),
        None => false,
    }
}

impl Layout {
    /// `egress PORT VECTOR`: for a port that controls egress and has no vector yet, from version 2 on.
    #[tactic(auto, unfolding(crate::specs::Rules::egress_fault))]
    pub(crate) fn egress_fault(&self, egress: &EgressText) -> Option<LayoutCause>
        ensures { result ≡ egress_fault self.now egress.now }
    {
        if is_first_version(self.version()) || !takes_vector(port_at(self.ports(), egress.port)) {
            return Some(LayoutCause::Line);
        }
        if has_foreign_bit(self, egress) {
            return Some(LayoutCause::EgressForeign);
        }
        None
    }
}
