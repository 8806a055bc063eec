//! A port as a layout has it.

ghost use Rattle.std.specs.Prelude.{◌≡◌, ◌≤◌, IfOk, IfSome, length};
ghost use Rattle.std.specs.List.{position};
ghost use Rattle.std.specs.Option.{option_copied};
ghost use Rattle.bridge.specs.Routes.{switch_at};
ghost use Rattle.port.specs.Configs.{exit_of, exits_of, is_of_port, leads_to, own_lane, lane_to};

use fab_types::{NoMemory, PortId};
use layout::Layout;
use platform::{DownstreamPort, Switch, id_below, is_taken};
use std::alloc::Global;

/// A way out of a switch through one of its downstream ports.
#[derive(Clone, Copy, Debug, PartialEq, Eq)]
pub struct Exit {
    /// The downstream port.
    pub port: PortId,
    /// Does a function or a switch stand below the port?
    pub leads_on: bool,
}

impl Exit {
    fn is_of_port(&self, port: PortId) -> bool
        ensures { result ≡ is_of_port port self.now }
    {
        self.port == port
    }

    fn leads_to(&self, port: PortId) -> bool
        ensures { result ≡ leads_to port self.now }
    {
        self.is_of_port(port) && self.leads_on
    }
}

pub(crate) fn switch_at(switches: &[Switch], id: PortId) -> Option<&Switch>
    ensures { option_copied result ≡ switch_at switches.now id }
{
    switches.iter().find(|line| line.id == id.id())
}

fn exit_of(layout: &Layout, line: &DownstreamPort) -> Exit
    ensures { result ≡ exit_of layout.now line.now }
{
    Exit {
        port: line.id,
        leads_on: is_taken(layout.switches(), layout.functions(), id_below(line)),
    }
}

/// The downstream ports of the switch whose ports are on this bus.
pub(crate) fn exits_of(alloc: Global, layout: &Layout, bus: u16) -> Result<Vec<Exit>, NoMemory>
    ensures { IfOk result (λ exits. exits.items ≡ exits_of layout.now bus) }
{
    Ok(
        layout
            .ports()
            .iter()
            .filter(|line| u16::from(line.id.id().bus()) == bus)
            .map(|line| exit_of(layout, line))
            .collect(alloc)?,
    )
}

fn find_own(exits: &[Exit], id: PortId) -> Option<usize>
    ensures { result ≡ position (is_of_port id) exits.now }
{
    exits.iter().position(|exit| exit.is_of_port(id))
}

fn find_leading(exits: &[Exit], port: PortId) -> Option<usize>
    ensures { result ≡ position (leads_to port) exits.now }
{
    exits.iter().position(|exit| exit.leads_to(port))
}

/// The lane out of a downstream port, if its switch has the port.
pub(crate) fn own_lane(exits: &[Exit], id: PortId) -> Option<usize>
    ensures value { result ≡ own_lane exits.now id }
    ensures within { IfSome result (λ lane. lane ≤ length exits.now) }
{
    match find_own(exits, id) {
        Some(index) => Some(index + 1),
        None => None,
    }
}

/// The lane out of a downstream port, if anything stands below it.
pub(crate) fn lane_to(exits: &[Exit], port: PortId) -> Option<usize>
    ensures value { result ≡ lane_to exits.now port }
    ensures within { IfSome result (λ lane. lane ≤ length exits.now) }
{
    match find_leading(exits, port) {
        Some(index) => Some(index + 1),
        None => None,
    }
}
