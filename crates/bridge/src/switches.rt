//! The switches of a platform, found by bus numbers.

ghost use Rattle.std.specs.Prelude.{◌≡◌, ◌==◌, true, IfOk};
ghost use Rattle.std.specs.List.{list_all};
ghost use Rattle.std.specs.Option.{option_copied};
ghost use Rattle.bridge.specs.Groups.{groups_of, group_on, group_at, group_below, is_first_on_bus, place_below, places_of};

use crate::switch::SwitchRoutes;
use fab_types::{NoMemory, PortId};
use platform::{DownstreamPort, Switch};
use std::alloc::Global;
use std::marker::Model;

/// The switches of a platform, each with its own ports. None is searched for: a table has the place of each. A contract
/// sees the switches.
#[derive(Debug, Drop)]
pub(crate) struct SwitchTable {
    switches: Vec<SwitchRoutes>,
    // by bus number: the place of the switch whose upstream port is on that bus
    places: Vec<Option<usize>>,
}

impl Model for SwitchTable {
    ghost use Rattle.std.specs.Prelude.{List};
    ghost use Rattle.bridge.specs.Groups.{Group};

    ghost Value = { List Group };

    ghost use Rattle.bridge.specs.SwitchTables.{IsSwitchTable};

    ghost view = { λ s. s.switches.items };

    ghost invariant = { IsSwitchTable };
}

fn switches_of(
    alloc: Global,
    lines: &[Switch],
    ports: &[DownstreamPort],
) -> Result<Vec<SwitchRoutes>, NoMemory>
    ensures { IfOk result (λ switches. switches.items ≡ groups_of lines.now ports.now) }
{
    let mut switches = Vec::new(alloc);
    for line in lines {
        switches.push(SwitchRoutes::new(alloc, *line, ports)?)?;
    }
    Ok(switches)
}

fn place_below(switches: &[SwitchRoutes], bus: u8) -> Option<usize>
    ensures { result ≡ place_below switches.now bus }
{
    switches.iter().position(|switch| switch.is_below_bus(bus))
}

fn places_of(alloc: Global, switches: &[SwitchRoutes]) -> Result<Vec<Option<usize>>, NoMemory>
    ensures { IfOk result (λ places. places.items ≡ places_of switches.now) }
{
    Ok(
        (0..=u8::MAX)
            .map(|bus| place_below(switches, bus))
            .collect(alloc)?,
    )
}

impl SwitchTable {
    /// The switches of these lines, each with its ports among these.
    pub(crate) fn new(
        alloc: Global,
        lines: &[Switch],
        ports: &[DownstreamPort],
    ) -> Result<SwitchTable, NoMemory>
        requires { list_all is_first_on_bus lines.now ≡ true }
        ensures { IfOk result (λ switches. switches ≡ groups_of lines.now ports.now) }
    {
        let switches = switches_of(alloc, lines, ports)?;
        let places = places_of(alloc, &switches)?;
        Ok(SwitchTable { switches, places })
    }

    fn place_below(&self, bus: u8) -> Option<usize>
        ensures { result ≡ place_below self.now bus }
    {
        self.places[usize::from(bus)]
    }

    fn below_bus(&self, bus: u8) -> Option<&SwitchRoutes>
        ensures value { option_copied result ≡ group_below self.now bus }
        ensures firsts { list_all (λ group. is_first_on_bus group.line) self.now ≡ true }
    {
        self.switches.get(self.place_below(bus)?)
    }

    /// The switch whose own ports are on this bus, the one after that of its upstream port.
    pub(crate) fn on_bus(&self, bus: u8) -> Option<&SwitchRoutes>
        ensures { option_copied result ≡ group_on self.now bus }
    {
        self.below_bus(bus.checked_sub(1)?)
    }

    /// The switch of this upstream port.
    pub(crate) fn at(&self, id: PortId) -> Option<&SwitchRoutes>
        ensures { option_copied result ≡ group_at self.now id }
    {
        self.below_bus(id.id().bus())
            .filter(|switch| switch.has_upstream_port(id))
    }
}
