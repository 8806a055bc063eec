//! The figures of a tree: the host, switches and functions.

ghost use Rattle.std.specs.Prelude.{◌≡◌, OnOk};
ghost use Rattle.std.specs.Io.KnownBytes.{Appends};
ghost use Rattle.drawing.specs.Elements.{AreInside, text_of};
ghost use Rattle.drawing.specs.Placing.{height_of, width_of};
ghost use Rattle.drawing.specs.Figures.{function_figure, function_inside, host_figure, host_inside, switch_figure, switch_inside, node_area};

use crate::attribute::{Area, Attribute, Class, Colour, Point};
use crate::element::{Tag, close, open};
use crate::label::Label;
use crate::placing::{Cell, cell_on, switch_width};
use crate::shapes::{write_box, write_label, write_line};
use platform::{DownstreamPort, EndpointFunction, Switch, domain_of, internal_bus};
use std::io;
use std::io::Write;

/// The host stands above the top switch.
const HOST: Area = Area {
    corner: Point { x: 270, y: 16 },
    width: 128,
    height: 32,
};

/// Writes the host, and the link to the top switch.
#[tactic(auto, unfolding(crate::specs::Figures::host_figure))]
pub(crate) fn write_host<W: Write>(out: &mut W) -> io::Result<()>
    ensures { OnOk result (Appends (W.contents out.old) (W.contents out.new) (text_of host_figure)) }
{
    open(out, Tag::Group, &[Attribute::Class(Class::Host)])?;
    write_host_inside(out)?;
    close(out, Tag::Group)
}

#[tactic(auto, unfolding(crate::specs::Figures::host_inside))]
fn write_host_inside<W: Write>(out: &mut W) -> io::Result<()>
    ensures { OnOk result (Appends (W.contents out.old) (W.contents out.new) (text_of host_inside)) }
{
    write_box(out, HOST, Colour::White)?;
    write_label(out, Point { x: 334, y: 36 }, Label::Host)?;
    write_line(out, Point { x: 334, y: 48 }, 48)
}

/// Writes a switch.
#[tactic(auto, unfolding(crate::specs::Figures::switch_figure))]
pub(crate) fn write_switch<W: Write>(
    out: &mut W,
    ports: &[DownstreamPort],
    switch: &Switch,
) -> io::Result<()>
    ensures written { OnOk result (Appends (W.contents out.old) (W.contents out.new) (text_of (switch_figure ports.now switch.now))) }
    ensures inside { OnOk result (AreInside (width_of ports.now) (height_of ports.now) (switch_figure ports.now switch.now)) }
{
    let cell = cell_on(ports, switch.id.bus());
    let width = switch_width(ports, switch);
    open(
        out,
        Tag::Group,
        &[Attribute::Class(Class::Switch), Attribute::Id(switch.id)],
    )?;
    write_switch_inside(out, cell, width, switch)?;
    close(out, Tag::Group)
}

#[tactic(auto, unfolding(crate::specs::Figures::switch_inside))]
fn write_switch_inside<W: Write>(
    out: &mut W,
    cell: Cell,
    width: u32,
    switch: &Switch,
) -> io::Result<()>
    ensures { OnOk result (Appends (W.contents out.old) (W.contents out.new) (text_of (switch_inside cell width switch.now))) }
{
    let corner = cell.point(0, 0);
    let area = Area {
        corner,
        width,
        height: 88,
    };
    write_box(out, area, Colour::Grey)?;
    write_label(out, cell.point(72, 26), Label::Switch)?;
    write_label(out, cell.point(72, 42), Label::Id(switch.id))?;
    write_label(out, cell.point(72, 58), Label::Bus(internal_bus(switch)))
}

/// What a port or a function covers, so far down in its cell.
pub(crate) fn node_area(cell: Cell, down: u8) -> Area
    ensures { result ≡ node_area cell down }
{
    Area {
        corner: cell.point(8, down),
        width: 128,
        height: 72,
    }
}

/// Writes a function.
#[tactic(auto, unfolding(crate::specs::Figures::function_figure))]
pub(crate) fn write_function<W: Write>(
    out: &mut W,
    ports: &[DownstreamPort],
    function: &EndpointFunction,
) -> io::Result<()>
    ensures written { OnOk result (Appends (W.contents out.old) (W.contents out.new) (text_of (function_figure ports.now function.now))) }
    ensures inside { OnOk result (AreInside (width_of ports.now) (height_of ports.now) (function_figure ports.now function.now)) }
{
    let cell = cell_on(ports, function.id.bus());
    let domain = domain_of(ports, function.id);
    let class = Attribute::Class(Class::Function);
    let id = Attribute::Id(function.id);
    open(out, Tag::Group, &[class, id, Attribute::Owner(domain)])?;
    write_function_inside(out, cell, function, domain)?;
    close(out, Tag::Group)
}

#[tactic(auto, unfolding(crate::specs::Figures::function_inside))]
fn write_function_inside<W: Write>(
    out: &mut W,
    cell: Cell,
    function: &EndpointFunction,
    domain: u8,
) -> io::Result<()>
    ensures { OnOk result (Appends (W.contents out.old) (W.contents out.new) (text_of (function_inside cell function.now domain))) }
{
    write_box(out, node_area(cell, 0), Colour::Domain(domain))?;
    write_label(out, cell.point(72, 18), Label::Function)?;
    write_label(out, cell.point(72, 34), Label::Id(function.id))?;
    write_label(out, cell.point(72, 50), Label::Domain(domain))?;
    write_label(out, cell.point(72, 66), Label::Address(function.bar))
}
