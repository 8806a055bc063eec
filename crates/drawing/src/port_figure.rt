//! The figure of a downstream port, and of the link below it.

ghost use Rattle.std.specs.Prelude.{◌≡◌, OnOk};
ghost use Rattle.std.specs.Io.KnownBytes.{Appends};
ghost use Rattle.drawing.specs.Elements.{AreInside, text_of};
ghost use Rattle.drawing.specs.Placing.{height_of, width_of};
ghost use Rattle.drawing.specs.Ports.{box_of_port, ink, letter_shape, letters_shape, controls_shape, line_of_link, link_figure, link_inside, port_figure, port_inside, span_shape, texts_of_port, vector_of, vector_shape};

use crate::attribute::{Area, Attribute, Class, Colour, Point};
use crate::element::{Tag, close, open};
use crate::figures::node_area;
use crate::label::Label;
use crate::placing::{Cell, port_cell};
use crate::shapes::{write_box, write_label, write_line};
use fab_types::{AcsControl, Control};
use layout::Layout;
use platform::{DownstreamPort, id_below, is_taken};
use std::io;
use std::io::Write;

/// Writes a downstream port, and the link below it.
#[tactic(auto, unfolding(crate::specs::Ports::port_figure))]
pub(crate) fn write_port<W: Write>(
    out: &mut W,
    layout: &Layout,
    port: &DownstreamPort,
) -> io::Result<()>
    ensures written { OnOk result (Appends (W.contents out.old) (W.contents out.new) (text_of (port_figure layout.now port.now))) }
    ensures inside { OnOk result (AreInside (width_of (layout.now).ports) (height_of (layout.now).ports) (port_figure layout.now port.now)) }
{
    let cell = port_cell(layout.ports(), port);
    let class = Attribute::Class(Class::Port);
    let id = Attribute::Id(port.id.id());
    let owner = Attribute::Owner(port.owner.get());
    let controls = Attribute::Controls(port.controls);
    open(out, Tag::Group, &[class, id, owner, controls])?;
    write_port_inside(out, layout, cell, port)?;
    close(out, Tag::Group)
}

#[tactic(auto, unfolding(crate::specs::Ports::port_inside))]
fn write_port_inside<W: Write>(
    out: &mut W,
    layout: &Layout,
    cell: Cell,
    port: &DownstreamPort,
) -> io::Result<()>
    ensures { OnOk result (Appends (W.contents out.old) (W.contents out.new) (text_of (port_inside layout.now cell port.now))) }
{
    write_box_of_port(out, cell, port)?;
    write_texts_of_port(out, cell, port)?;
    write_link(out, layout, cell, port)
}

/// Writes the box of a port, with a strip in the colour of its domain.
#[tactic(auto, unfolding(crate::specs::Ports::box_of_port))]
fn write_box_of_port<W: Write>(out: &mut W, cell: Cell, port: &DownstreamPort) -> io::Result<()>
    ensures { OnOk result (Appends (W.contents out.old) (W.contents out.new) (text_of (box_of_port cell port.now))) }
{
    let strip = Area {
        corner: cell.point(8, 8),
        width: 8,
        height: 72,
    };
    write_box(out, node_area(cell, 8), Colour::White)?;
    write_box(out, strip, Colour::Domain(port.owner.get()))
}

#[tactic(auto, unfolding(crate::specs::Ports::texts_of_port))]
fn write_texts_of_port<W: Write>(out: &mut W, cell: Cell, port: &DownstreamPort) -> io::Result<()>
    ensures { OnOk result (Appends (W.contents out.old) (W.contents out.new) (text_of (texts_of_port cell port.now))) }
{
    write_label(out, cell.point(76, 26), Label::Id(port.id.id()))?;
    write_controls(out, cell.point(76, 42), port.controls)?;
    write_label(out, cell.point(76, 58), Label::Domain(port.owner.get()))?;
    write_vector(out, cell.point(76, 74), port)
}

/// Writes the letters of the controls: the five that guard a port, in red where they are clear, and that of egress control
/// where it is set.
#[tactic(auto, unfolding(crate::specs::Ports::controls_shape))]
fn write_controls<W: Write>(out: &mut W, point: Point, controls: AcsControl) -> io::Result<()>
    ensures { OnOk result (Appends (W.contents out.old) (W.contents out.new) (text_of (controls_shape point controls))) }
{
    open(out, Tag::Text, &[Attribute::At(point)])?;
    write_letters(out, controls)?;
    close(out, Tag::Text)
}

#[tactic(auto, unfolding(crate::specs::Ports::letters_shape))]
fn write_letters<W: Write>(out: &mut W, controls: AcsControl) -> io::Result<()>
    ensures { OnOk result (Appends (W.contents out.old) (W.contents out.new) (text_of (letters_shape controls))) }
{
    write_letter(out, controls, Control::SourceValidation)?;
    write_letter(out, controls, Control::TranslationBlocking)?;
    write_letter(out, controls, Control::RequestRedirect)?;
    write_letter(out, controls, Control::CompletionRedirect)?;
    write_letter(out, controls, Control::UpstreamForwarding)?;
    if controls.controls_egress() {
        write_span(out, Colour::Black, Label::Egress)?;
    }
    Ok(())
}

fn ink(is_set: bool) -> Colour
    ensures { result ≡ ink is_set }
{
    if is_set { Colour::Black } else { Colour::Red }
}

fn write_letter<W: Write>(out: &mut W, controls: AcsControl, control: Control) -> io::Result<()>
    ensures { OnOk result (Appends (W.contents out.old) (W.contents out.new) (text_of (letter_shape controls control))) }
{
    write_span(out, ink(control.is_set(controls)), Label::Letter(control))
}

/// Writes a part of a text, in a colour of its own.
#[tactic(auto, unfolding(crate::specs::Ports::span_shape))]
fn write_span<W: Write>(out: &mut W, colour: Colour, label: Label) -> io::Result<()>
    ensures { OnOk result (Appends (W.contents out.old) (W.contents out.new) (text_of (span_shape colour label))) }
{
    open(out, Tag::Span, &[Attribute::Fill(colour)])?;
    write!(out, "{label}")?;
    close(out, Tag::Span)
}

/// The vector of a port; where none was given all bits are 1.
fn vector_of(port: &DownstreamPort) -> u32
    ensures { result ≡ vector_of port.now }
{
    port.egress_vector.unwrap_or(u32::MAX)
}

/// Writes the vector of a port that controls egress.
#[tactic(auto, unfolding(crate::specs::Ports::vector_shape))]
fn write_vector<W: Write>(out: &mut W, point: Point, port: &DownstreamPort) -> io::Result<()>
    ensures { OnOk result (Appends (W.contents out.old) (W.contents out.new) (text_of (vector_shape point port.now))) }
{
    if port.controls.controls_egress() {
        write_label(out, point, Label::Vector(vector_of(port)))?;
    }
    Ok(())
}

/// Writes the link below a port, with the buses and the window below.
#[tactic(auto, unfolding(crate::specs::Ports::link_figure))]
fn write_link<W: Write>(
    out: &mut W,
    layout: &Layout,
    cell: Cell,
    port: &DownstreamPort,
) -> io::Result<()>
    ensures { OnOk result (Appends (W.contents out.old) (W.contents out.new) (text_of (link_figure layout.now cell port.now))) }
{
    let class = Attribute::Class(Class::Link);
    open(out, Tag::Group, &[class, Attribute::FromPoint])?;
    write_link_inside(out, layout, cell, port)?;
    close(out, Tag::Group)
}

#[tactic(auto, unfolding(crate::specs::Ports::link_inside))]
fn write_link_inside<W: Write>(
    out: &mut W,
    layout: &Layout,
    cell: Cell,
    port: &DownstreamPort,
) -> io::Result<()>
    ensures { OnOk result (Appends (W.contents out.old) (W.contents out.new) (text_of (link_inside layout.now cell port.now))) }
{
    write_line_of_link(out, layout, cell, port)?;
    let buses = Label::Buses(port.secondary, port.subordinate);
    write_label(out, cell.point(80, 104), buses)?;
    write_label(out, cell.point(80, 120), Label::From(port.base))?;
    write_label(out, cell.point(80, 136), Label::Address(port.limit))
}

/// Writes the line of a link, if something stands below the port.
#[tactic(auto, unfolding(crate::specs::Ports::line_of_link))]
fn write_line_of_link<W: Write>(
    out: &mut W,
    layout: &Layout,
    cell: Cell,
    port: &DownstreamPort,
) -> io::Result<()>
    ensures { OnOk result (Appends (W.contents out.old) (W.contents out.new) (text_of (line_of_link layout.now cell port.now))) }
{
    if is_taken(layout.switches(), layout.functions(), id_below(port)) {
        write_line(out, cell.point(72, 80), 72)?;
    }
    Ok(())
}
