//! The drawing of a layout.

ghost use Rattle.std.specs.Prelude.{ℕ, List, OnOk};
ghost use Rattle.std.specs.Io.KnownBytes.{Appends};
ghost use Rattle.drawing.specs.Elements.{AreInside, each, text_of};
ghost use Rattle.drawing.specs.Placing.{height_of, width_of};
ghost use Rattle.drawing.specs.Figures.{function_figure, switch_figure};
ghost use Rattle.drawing.specs.Ports.{port_figure};
ghost use Rattle.drawing.specs.Drawing.{background, drawing_inside, drawing_of, IsDrawing};

use crate::attribute::{Area, Attribute, Colour, Point};
use crate::element::{Tag, close, open, write_bare};
use crate::figures::{write_function, write_host, write_switch};
use crate::legend::write_legend;
use crate::placing::{height_of, width_of};
use crate::port_figure::write_port;
use layout::Layout;
use platform::{DownstreamPort, EndpointFunction, Switch};
use std::alloc::Global;
use std::io;
use std::io::Write;

/// Writes the tree of a layout as a document of SVG. Where memory is refused before all of it stands ready, nothing is
/// written, and the error is of the kind `OutOfMemory`; other errors are those of the writer.
pub fn write_drawing<W: Write>(alloc: Global, out: &mut W, layout: &Layout) -> io::Result<()>
    ensures { OnOk result ((text : List ℕ) × IsDrawing layout.now text × Appends (W.contents out.old) (W.contents out.new) text) }
{
    let mut drawing = Vec::new(alloc);
    write_svg(&mut drawing, layout)?;
    out.write_all(&drawing)?;
    Ok(())
}

#[tactic(auto, unfolding(crate::specs::Drawing::drawing_of))]
fn write_svg<W: Write>(out: &mut W, layout: &Layout) -> io::Result<()>
    ensures written { OnOk result (Appends (W.contents out.old) (W.contents out.new) (text_of (drawing_of layout.now))) }
    ensures inside { OnOk result (AreInside (width_of (layout.now).ports) (height_of (layout.now).ports) (drawing_of layout.now)) }
{
    let ports = layout.ports();
    let width = width_of(ports);
    let height = height_of(ports);
    let size = Attribute::Size(width, height);
    let view = Attribute::ViewBox(width, height);
    open(
        out,
        Tag::Svg,
        &[Attribute::Namespace, size, view, Attribute::Font],
    )?;
    write_inside(out, layout)?;
    close(out, Tag::Svg)
}

#[tactic(auto, unfolding(crate::specs::Drawing::drawing_inside))]
fn write_inside<W: Write>(out: &mut W, layout: &Layout) -> io::Result<()>
    ensures written { OnOk result (Appends (W.contents out.old) (W.contents out.new) (text_of (drawing_inside layout.now))) }
    ensures inside { OnOk result (AreInside (width_of (layout.now).ports) (height_of (layout.now).ports) (drawing_inside layout.now)) }
{
    write_background(out, layout.ports())?;
    write_host(out)?;
    write_switches(out, layout.ports(), layout.switches())?;
    write_ports(out, layout)?;
    write_functions(out, layout.ports(), layout.functions())?;
    write_legend(out, layout.ports())
}

#[tactic(auto, unfolding(crate::specs::Drawing::background))]
fn write_background<W: Write>(out: &mut W, ports: &[DownstreamPort]) -> io::Result<()>
    ensures { OnOk result (Appends (W.contents out.old) (W.contents out.new) (text_of (background ports.now))) }
{
    let whole = Area {
        corner: Point { x: 0, y: 0 },
        width: width_of(ports),
        height: height_of(ports),
    };
    let covers = Attribute::Covers(whole);
    write_bare(out, Tag::Rect, &[covers, Attribute::Fill(Colour::White)])
}

fn write_switches<W: Write>(
    out: &mut W,
    ports: &[DownstreamPort],
    switches: &[Switch],
) -> io::Result<()>
    ensures written { OnOk result (Appends (W.contents out.old) (W.contents out.new) (text_of (each (switch_figure ports.now) switches.now))) }
    ensures inside { OnOk result (AreInside (width_of ports.now) (height_of ports.now) (each (switch_figure ports.now) switches.now)) }
{
    for switch in switches {
        write_switch(out, ports, switch)?;
    }
    Ok(())
}

fn write_ports<W: Write>(out: &mut W, layout: &Layout) -> io::Result<()>
    ensures written { OnOk result (Appends (W.contents out.old) (W.contents out.new) (text_of (each (port_figure layout.now) (layout.now).ports))) }
    ensures inside { OnOk result (AreInside (width_of (layout.now).ports) (height_of (layout.now).ports) (each (port_figure layout.now) (layout.now).ports)) }
{
    for port in layout.ports() {
        write_port(out, layout, port)?;
    }
    Ok(())
}

fn write_functions<W: Write>(
    out: &mut W,
    ports: &[DownstreamPort],
    functions: &[EndpointFunction],
) -> io::Result<()>
    ensures written { OnOk result (Appends (W.contents out.old) (W.contents out.new) (text_of (each (function_figure ports.now) functions.now))) }
    ensures inside { OnOk result (AreInside (width_of ports.now) (height_of ports.now) (each (function_figure ports.now) functions.now)) }
{
    for function in functions {
        write_function(out, ports, function)?;
    }
    Ok(())
}
