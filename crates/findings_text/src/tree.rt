//! The tree of a layout as text: a line for each switch, port and function, below what it hangs from.

ghost use Rattle.std.specs.Prelude.{◌≡◌, ◌==◌, ◌≤◌, OnOk};
ghost use Rattle.std.specs.List.{find};
ghost use Rattle.std.specs.Io.KnownBytes.{Appends};
ghost use Rattle.std.specs.Option.{option_copied};
ghost use Rattle.fab_types.specs.Id.{bus_of};
ghost use Rattle.findings_text.specs.Tree.{function_line, function_lines, function_on, function_words, levels_above, lines_below, lines_on, parts_of, port_lines, switch_line, switch_lines, switch_words, tree_text};

use crate::indent::write_indent;
use crate::port_line::write_port_line;
use crate::remarks::{Remarks, write_with_id};
use layout::Layout;
use platform::{
    DownstreamPort, EndpointFunction, LayoutVersion, Switch, domain_of, internal_bus,
    port_with_secondary,
};
use std::io;
use std::io::Write;

/// How many buses there are.
const BUSES: u16 = 256;

/// The most ports that stand above a function.
const LEVELS: usize = 3;

/// What a tree is made of, and the names of its devices.
#[derive(Clone, Copy)]
pub(crate) struct Tree<'a> {
    pub(crate) remarks: &'a Remarks,
    pub(crate) version: LayoutVersion,
    pub(crate) ports: &'a [DownstreamPort],
    pub(crate) switches: &'a [Switch],
    pub(crate) functions: &'a [EndpointFunction],
}

/// Writes the tree of a layout.
/// Switches, ports and functions come in the order of their buses, so what hangs below a port comes behind it.
pub(crate) fn write_tree<W: Write>(
    out: &mut W,
    layout: &Layout,
    remarks: &Remarks,
) -> io::Result<()>
    ensures { OnOk result (Appends (W.contents out.old) (W.contents out.new) (tree_text layout.now remarks.now.names)) }
{
    let tree = Tree {
        remarks,
        version: layout.version(),
        ports: layout.ports(),
        switches: layout.switches(),
        functions: layout.functions(),
    };
    write_buses(out, &tree, BUSES)
}

/// Writes the lines of the first so many buses.
#[tactic(auto, unfolding(crate::specs::Tree::lines_below))]
fn write_buses<W: Write>(out: &mut W, tree: &Tree<'_>, count: u16) -> io::Result<()>
    requires { count ≤ 256 }
    ensures { OnOk result (Appends (W.contents out.old) (W.contents out.new) (lines_below (parts_of tree.now) count)) }
{
    for bus in 0..count {
        write_bus(out, tree, bus as u8)?;
    }
    Ok(())
}

/// How many ports stand above what is on this bus.
fn levels_above(ports: &[DownstreamPort], bus: u8) -> u8
    ensures value { result ≡ levels_above ports.now bus }
    ensures most { result ≤ 3 }
{
    let above = ports.iter().filter(|port| port.holds_bus(bus)).count();
    above.min(LEVELS) as u8
}

fn switch_on(switches: &[Switch], bus: u8) -> Option<&Switch>
    ensures { option_copied result ≡ find (λ switch. bus_of switch.id == bus) switches.now }
{
    switches.iter().find(|switch| switch.id.bus() == bus)
}

fn function_on(functions: &[EndpointFunction], bus: u8) -> Option<&EndpointFunction>
    ensures { option_copied result ≡ function_on functions.now bus }
{
    functions.iter().find(|line| line.id.bus() == bus)
}

/// Writes the port that leads to a bus, and the switch or function on it.
fn write_bus<W: Write>(out: &mut W, tree: &Tree<'_>, bus: u8) -> io::Result<()>
    ensures { OnOk result (Appends (W.contents out.old) (W.contents out.new) (lines_on (parts_of tree.now) bus)) }
{
    let depth = levels_above(tree.ports, bus) * 2;
    let port = port_with_secondary(tree.ports, bus);
    let switch = switch_on(tree.switches, bus);
    let function = function_on(tree.functions, bus);
    write_port(out, tree.remarks, tree.version, depth, port)?;
    write_switch(out, tree.remarks, depth, switch)?;
    write_function(out, tree.remarks, depth, tree.ports, function)?;
    Ok(())
}

fn write_port<W: Write>(
    out: &mut W,
    remarks: &Remarks,
    version: LayoutVersion,
    depth: u8,
    port: Option<&DownstreamPort>,
) -> io::Result<()>
    ensures { OnOk result (Appends (W.contents out.old) (W.contents out.new) (port_lines remarks.now.names version depth (option_copied port.entry))) }
{
    match port {
        Some(port) => write_port_line(out, remarks, version, depth, port),
        None => Ok(()),
    }
}

/// Writes the bus of a switch's ports, and ends the line.
fn write_switch_words<W: Write>(out: &mut W, switch: &Switch) -> io::Result<()>
    ensures { OnOk result (Appends (W.contents out.old) (W.contents out.new) (switch_words switch.now)) }
{
    let bus = internal_bus(switch);
    writeln!(out, " bus {bus:02x}")
}

fn write_switch_line<W: Write>(
    out: &mut W,
    remarks: &Remarks,
    depth: u8,
    switch: &Switch,
) -> io::Result<()>
    ensures { OnOk result (Appends (W.contents out.old) (W.contents out.new) (switch_line remarks.now.names depth switch.now)) }
{
    write_indent(out, depth)?;
    write_with_id(out, remarks, b"switch ", switch.id)?;
    write_switch_words(out, switch)?;
    Ok(())
}

fn write_switch<W: Write>(
    out: &mut W,
    remarks: &Remarks,
    depth: u8,
    switch: Option<&Switch>,
) -> io::Result<()>
    ensures { OnOk result (Appends (W.contents out.old) (W.contents out.new) (switch_lines remarks.now.names depth (option_copied switch.entry))) }
{
    match switch {
        Some(switch) => write_switch_line(out, remarks, depth, switch),
        None => Ok(()),
    }
}

/// Writes a function's domain and its page, and ends the line.
fn write_function_words<W: Write>(out: &mut W, owner: u8, page: u32) -> io::Result<()>
    ensures { OnOk result (Appends (W.contents out.old) (W.contents out.new) (function_words owner page)) }
{
    writeln!(out, " domain {owner} page {page:08x}")
}

fn write_function_line<W: Write>(
    out: &mut W,
    remarks: &Remarks,
    depth: u8,
    ports: &[DownstreamPort],
    line: &EndpointFunction,
) -> io::Result<()>
    ensures { OnOk result (Appends (W.contents out.old) (W.contents out.new) (function_line remarks.now.names depth ports.now line.now)) }
{
    write_indent(out, depth)?;
    write_with_id(out, remarks, b"function ", line.id)?;
    write_function_words(out, domain_of(ports, line.id), line.bar)?;
    Ok(())
}

fn write_function<W: Write>(
    out: &mut W,
    remarks: &Remarks,
    depth: u8,
    ports: &[DownstreamPort],
    line: Option<&EndpointFunction>,
) -> io::Result<()>
    ensures { OnOk result (Appends (W.contents out.old) (W.contents out.new) (function_lines remarks.now.names depth ports.now (option_copied line.entry))) }
{
    match line {
        Some(line) => write_function_line(out, remarks, depth, ports, line),
        None => Ok(()),
    }
}
