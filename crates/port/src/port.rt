//! A port of a switch.

ghost use Rattle.std.specs.Prelude.{◌≡◌, ◌+◌, ◌≤◌, IfOk, option_map, None, Some, [], length};
ghost use Rattle.std.specs.List.{Contains};
ghost use Rattle.std.specs.Option.{option_copied};
ghost use Rattle.port.specs.Configs.{config_of, direction_in, downstream_config, known_config, upstream_config};

use crate::config::{Exit, exits_of, own_lane, switch_at};
use fab_types::{Direction, NoMemory, PortId, Violation, Way};
use frame_log::Frame;
use layout::Layout;
use platform::{DownstreamPort, Switch, id_below, internal_bus, port_at};
use std::alloc::Global;
use std::marker::Model;
use switch_output::VettedFrame;

/// A port of a switch: a downstream port, or the upstream port. A contract sees a `PortView`.
#[derive(Drop)]
pub struct Port {
    pub(crate) id: PortId,
    pub(crate) line: Option<DownstreamPort>,
    pub(crate) exits: Vec<Exit>,
    pub(crate) own: usize,
    pub(crate) held: Option<Violation>,
    pub(crate) kept: Option<VettedFrame>,
    pub(crate) strays: Vec<Frame>,
}

impl Model for Port {
    ghost use Rattle.std.specs.Prelude.{◌≤◌, length};
    ghost use Rattle.port.specs.Turns.{PortView};
    ghost use Rattle.switch_output.specs.Vetted.{frame_in};

    ghost Value = { PortView };

    ghost view = { λ p. record {
      config = record { id = p.id; line = p.line; exits = p.exits.items; own = p.own };
      held = p.held;
      kept = frame_in p.kept;
      strays = p.strays.items;
    } };

    ghost invariant = { λ p. p.own ≤ length p.exits.items };
}

impl Port {
    /// The port of this ID, as a layout has it.
    /// It is a downstream port of the layout, or the upstream port of a switch. None where the layout has no
    /// such port. It answers `NoMemory` where memory was refused.
    pub fn new(alloc: Global, layout: &Layout, id: PortId) -> Result<Option<Port>, NoMemory>
        ensures { IfOk result (λ port. port ≡ option_map (λ config. record { config = config; held = None; kept = None; strays = [] }) (config_of layout.now id)) }
    {
        if let Some(line) = port_at(layout.ports(), id.id()) {
            return Port::downstream(alloc, layout, &line);
        }
        match switch_at(layout.switches(), id) {
            Some(switch) => Ok(Some(Port::upstream(alloc, layout, switch)?)),
            None => Ok(None),
        }
    }

    /// The upstream port of a switch of the layout. It answers `NoMemory` where memory was refused.
    pub fn upstream(alloc: Global, layout: &Layout, switch: &Switch) -> Result<Port, NoMemory>
        ensures { IfOk result (λ port. port ≡ record { config = upstream_config layout.now switch.now; held = None; kept = None; strays = [] }) }
    {
        let exits = exits_of(alloc, layout, internal_bus(switch))?;
        Ok(Port::of(alloc, PortId::new(switch.id), None, exits, 0))
    }

    /// A downstream port of the layout. None where its switch has no such port, as none of the layout's own.
    /// It answers `NoMemory` where memory was refused.
    pub fn downstream(
        alloc: Global,
        layout: &Layout,
        line: &DownstreamPort,
    ) -> Result<Option<Port>, NoMemory>
        ensures exact { IfOk result (λ port. port ≡ option_map (λ config. record { config = config; held = None; kept = None; strays = [] }) (known_config layout.now line.now)) }

        // Each port of the layout stands on its switch.
        ensures listed { Contains layout.now.ports line.now → IfOk result (λ port. port ≡ Some (record { config = downstream_config layout.now line.now; held = None; kept = None; strays = [] })) }
    {
        let exits = exits_of(alloc, layout, u16::from(line.id.id().bus()))?;
        match own_lane(&exits, line.id) {
            Some(own) => Ok(Some(Port::of(alloc, line.id, Some(*line), exits, own))),
            None => Ok(None),
        }
    }

    fn of(
        alloc: Global,
        id: PortId,
        line: Option<DownstreamPort>,
        exits: Vec<Exit>,
        own: usize,
    ) -> Port
        requires { own ≤ length exits.items }
        ensures { result ≡ record { config = record { id = id; line = line; exits = exits.items; own = own }; held = None; kept = None; strays = [] } }
    {
        Port {
            id,
            line,
            exits,
            own,
            held: None,
            kept: None,
            strays: Vec::new(alloc),
        }
    }

    /// How many lanes lead out of its switch.
    /// There is one out of the upstream port, and one out of each downstream port.
    pub fn lanes(&self) -> usize
        ensures { result ≡ length self.now.config.exits + 1 }
    {
        self.exits.len() + 1
    }

    /// The lane out of the port itself, by which its answers leave.
    pub fn own_lane(&self) -> usize
        ensures value { result ≡ self.now.config.own }
        ensures within { result ≤ length self.now.config.exits }
    {
        self.own
    }

    /// The direction in which packets come into it.
    /// That is up from what stands below a downstream port, or down to an upstream port.
    pub fn direction_in(&self) -> Direction
        ensures { result ≡ direction_in self.now.config }
    {
        match &self.line {
            Some(line) => Direction {
                lower: id_below(line),
                way: Way::Up,
            },
            None => Direction {
                lower: self.id.id(),
                way: Way::Down,
            },
        }
    }

    /// The packets that came and that the port had no case for.
    /// They stand in the order in which they came.
    pub fn strays(&self) -> &[Frame]
        ensures { result.now ≡ self.now.strays }
    {
        &self.strays
    }

    /// The answer that its lane gave back.
    /// The next turn tries to put it there again.
    pub fn kept_answer(&self) -> Option<&Frame>
        ensures { option_copied result ≡ self.now.kept }
    {
        match &self.kept {
            Some(answer) => Some(answer.frame()),
            None => None,
        }
    }

    /// Holds a report that a reporter gave back, where none is held.
    /// The next turn tries it first.
    pub fn hold(&mut self, report: Violation)
        requires { self.old.held ≡ None }
        ensures { self.new ≡ record self.old { held = Some report } }
    {
        self.held = Some(report);
    }

    /// The report that there was no place for yet.
    pub fn held_report(&self) -> Option<Violation>
        ensures { result ≡ self.now.held }
    {
        self.held
    }
}
