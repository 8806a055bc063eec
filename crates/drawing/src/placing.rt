//! Where the nodes of a tree stand: each below what it hangs from, from left to right by rising buses.

ghost use Rattle.std.specs.Prelude.{◌≡◌, ◌==◌, ◌≤◌, ◌+◌};
ghost use Rattle.platform.specs.Tree.{port_above};
ghost use Rattle.layout.specs.Rules.{last_bus};
ghost use Rattle.drawing.specs.Placing.{IsInTree, cell_on, columns_before, deepest_row, domains_before, height_of, leads_to, legend_point, owns, point_in, port_cell, row_of, switch_width, width_of};

use crate::attribute::Point;
use platform::{DownstreamPort, Switch, port_above};

/// How far columns are apart, in pixels.
const COLUMN: u32 = 152;

/// How far rows are apart.
const ROW: u32 = 152;

/// The most ports that stand above a function.
const LEVELS: usize = 3;

/// Where a node stands.
#[derive(Clone, Copy)]
pub struct Cell {
    /// Counted from the left.
    pub column: u16,
    /// How many ports stand above.
    pub row: u8,
}

impl Cell {
    /// The point so far to the right and down in the cell.
    pub(crate) fn point(self, right: u8, down: u8) -> Point
        ensures { result ≡ point_in self right down }
    {
        Point {
            x: 262 + COLUMN * u32::from(self.column) + u32::from(right),
            y: 96 + ROW * u32::from(self.row) + u32::from(down),
        }
    }
}

/// Is it the first bus below a port?
fn leads_to(ports: &[DownstreamPort], bus: u16) -> bool
    ensures { result ≡ leads_to ports.now bus }
{
    ports.iter().any(|port| u16::from(port.secondary) == bus)
}

/// How many ports lead to buses below this one.
#[tactic(auto, using(crate::proofs::Counting::count_hit, crate::proofs::Counting::count_miss, crate::proofs::Counting::count_none))]
pub(crate) fn columns_before(ports: &[DownstreamPort], bus: u16) -> u16
    ensures value { result ≡ columns_before ports.now bus }
    ensures most { result ≤ bus }
{
    let mut columns = 0;
    for other in 0..bus {
        if leads_to(ports, other) {
            columns += 1;
        }
    }
    columns
}

/// How many ports stand above what is on this bus.
fn row_of(ports: &[DownstreamPort], bus: u8) -> u8
    ensures value { result ≡ row_of ports.now bus }
    ensures most { result ≤ 3 }
{
    let above = ports.iter().filter(|port| port.holds_bus(bus)).count();
    above.min(LEVELS) as u8
}

/// Where a switch or a function on this bus stands.
#[tactic(auto, using(crate::proofs::Counting::count_more, crate::proofs::Counting::greatest_at))]
pub(crate) fn cell_on(ports: &[DownstreamPort], bus: u8) -> Cell
    ensures value { result ≡ cell_on ports.now bus }
    ensures inside { IsInTree ports.now result }
{
    Cell {
        column: columns_before(ports, u16::from(bus) + 1),
        row: row_of(ports, bus),
    }
}

/// Where a downstream port stands: above what is below it, in the row of its switch.
#[tactic(auto, using(crate::proofs::Counting::count_more, crate::proofs::Counting::greatest_at))]
pub(crate) fn port_cell(ports: &[DownstreamPort], port: &DownstreamPort) -> Cell
    ensures value { result ≡ port_cell ports.now port.now }
    ensures inside { IsInTree ports.now result }
{
    Cell {
        column: columns_before(ports, u16::from(port.secondary) + 1),
        row: row_of(ports, port.id.id().bus()),
    }
}

fn last_bus(ports: &[DownstreamPort], switch: &Switch) -> u8
    ensures { result ≡ last_bus (port_above ports.now switch.now) }
{
    match port_above(ports, switch) {
        Some(port) => port.subordinate,
        None => 255,
    }
}

/// How wide a switch is: it reaches over the columns of all that is below it.
#[tactic(auto, using(crate::proofs::Counting::count_more))]
pub(crate) fn switch_width(ports: &[DownstreamPort], switch: &Switch) -> u32
    ensures value { result ≡ switch_width ports.now switch.now }
    ensures inside { columns_before ports.now (last_bus (port_above ports.now switch.now) + 1) ≤ columns_before ports.now 256 }
{
    let first = columns_before(ports, u16::from(switch.id.bus()) + 1);
    let last = columns_before(ports, u16::from(last_bus(ports, switch)) + 1);
    144 + COLUMN * u32::from(last.saturating_sub(first))
}

#[tactic(auto, using(crate::proofs::Counting::greatest_next, crate::proofs::Counting::greatest_none))]
fn deepest_row(ports: &[DownstreamPort]) -> u8
    ensures value { result ≡ deepest_row ports.now }
    ensures most { result ≤ 3 }
{
    let mut deepest = 0;
    for bus in 0..256u16 {
        deepest = row_of(ports, bus as u8).max(deepest);
    }
    deepest
}

/// Does the domain of this number own a port?
pub(crate) fn owns(ports: &[DownstreamPort], number: u8) -> bool
    ensures { result ≡ owns ports.now number }
{
    ports.iter().any(|port| port.owner.get() == number)
}

/// How many domains below this number own a port.
#[tactic(auto, using(crate::proofs::Counting::count_hit, crate::proofs::Counting::count_miss, crate::proofs::Counting::count_none))]
pub(crate) fn domains_before(ports: &[DownstreamPort], number: u8) -> u8
    ensures value { result ≡ domains_before ports.now number }
    ensures most { result ≤ number }
{
    let mut domains = 0;
    for other in 0..number {
        if owns(ports, other) {
            domains += 1;
        }
    }
    domains
}

/// Where a line of the legend begins.
pub(crate) fn legend_point(line: u16) -> Point
    ensures { result ≡ legend_point line }
{
    Point {
        x: 16,
        y: 32 + 18 * u32::from(line),
    }
}

/// The width of the drawing, in pixels.
pub(crate) fn width_of(ports: &[DownstreamPort]) -> u32
    ensures { result ≡ width_of ports.now }
{
    422 + COLUMN * u32::from(columns_before(ports, 256))
}

/// The height of the drawing, in pixels.
pub(crate) fn height_of(ports: &[DownstreamPort]) -> u32
    ensures { result ≡ height_of ports.now }
{
    let tree = 256 + ROW * u32::from(deepest_row(ports));
    let legend = 216 + 18 * u32::from(domains_before(ports, 32));
    tree.max(legend)
}
