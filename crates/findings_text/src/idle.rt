//! Clear controls past which nothing was seen to land, and the ports that still stop what they would have stopped.

ghost use Rattle.std.specs.Prelude.{◌≡◌};
ghost use Rattle.std.specs.List.{find, list_any};
ghost use Rattle.std.specs.Option.{option_copied};
ghost use Rattle.findings_text.specs.Idle.{is_idle, is_set_above, is_set_below, is_used, obstacle_below, obstacle_of, uses};

use attacks::{Pair, Witness};
use fab_types::{Control, PortId};
use platform::DownstreamPort;

/// What still stops what a clear control would have stopped.
#[derive(Clone, Copy)]
pub(crate) enum Obstacle {
    /// This port above, where the control is set.
    Above(PortId),
    /// This port below, where the control is set.
    Below(PortId),
    /// No port.
    Nothing,
}

/// Did a witness pass this port, past this control?
fn uses(witness: &Witness, port: &DownstreamPort, control: Control) -> bool
    ensures { result ≡ uses port.now control witness.now }
{
    match control {
        Control::SourceValidation => {
            matches!(witness.control, Control::SourceValidation)
                && port.holds_bus(witness.function.bus())
        }
        Control::TranslationBlocking => {
            matches!(witness.control, Control::TranslationBlocking)
                && port.holds_bus(witness.function.bus())
        }
        Control::RequestRedirect => {
            matches!(witness.control, Control::RequestRedirect) && witness.port == port.id
        }
        Control::CompletionRedirect | Control::UpstreamForwarding => false,
    }
}

fn is_used(pair: &Pair, port: &DownstreamPort, control: Control) -> bool
    ensures { result ≡ is_used port.now control pair.now }
{
    pair.witnesses
        .iter()
        .any(|witness| uses(witness, port, control))
}

fn is_any_used(pairs: &[Pair], port: &DownstreamPort, control: Control) -> bool
    ensures { result ≡ list_any (is_used port.now control) pairs.now }
{
    pairs.iter().any(|pair| is_used(pair, port, control))
}

/// Is the control clear at the port, and was nothing seen to pass it?
pub(crate) fn is_idle(pairs: &[Pair], port: &DownstreamPort, control: Control) -> bool
    ensures { result ≡ is_idle pairs.now port.now control }
{
    !control.is_set(port.controls) && !is_any_used(pairs, port, control)
}

fn is_set_above(other: &DownstreamPort, port: &DownstreamPort, control: Control) -> bool
    ensures { result ≡ is_set_above port.now control other.now }
{
    other.id != port.id && other.holds_bus(port.secondary) && control.is_set(other.controls)
}

fn is_set_below(other: &DownstreamPort, port: &DownstreamPort, control: Control) -> bool
    ensures { result ≡ is_set_below port.now control other.now }
{
    other.id != port.id && port.holds_bus(other.secondary) && control.is_set(other.controls)
}

fn port_above<'a>(
    ports: &'a [DownstreamPort],
    port: &DownstreamPort,
    control: Control,
) -> Option<&'a DownstreamPort>
    ensures { option_copied result ≡ find (is_set_above port.now control) ports.entry.now }
{
    ports
        .iter()
        .find(|other| is_set_above(other, port, control))
}

fn port_below<'a>(
    ports: &'a [DownstreamPort],
    port: &DownstreamPort,
    control: Control,
) -> Option<&'a DownstreamPort>
    ensures { option_copied result ≡ find (is_set_below port.now control) ports.entry.now }
{
    ports
        .iter()
        .find(|other| is_set_below(other, port, control))
}

fn obstacle_below(other: Option<&DownstreamPort>) -> Obstacle
    ensures { result ≡ obstacle_below (option_copied other.entry) }
{
    match other {
        Some(other) => Obstacle::Below(other.id),
        None => Obstacle::Nothing,
    }
}

/// The first port above that has the control set, or else the first below.
pub(crate) fn obstacle_of(
    ports: &[DownstreamPort],
    port: &DownstreamPort,
    control: Control,
) -> Obstacle
    ensures { result ≡ obstacle_of ports.now port.now control }
{
    match port_above(ports, port, control) {
        Some(other) => Obstacle::Above(other.id),
        None => obstacle_below(port_below(ports, port, control)),
    }
}
