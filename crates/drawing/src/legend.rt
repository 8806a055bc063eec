//! The legend: the letters of controls, and the colours of domains.

ghost use Rattle.std.specs.Prelude.{OnOk};
ghost use Rattle.std.specs.Io.KnownBytes.{Appends};
ghost use Rattle.drawing.specs.Elements.{text_of};
ghost use Rattle.drawing.specs.Legend.{clear_shape, controls_shapes, domain_shape, domain_shapes, egress_shapes, legend_figure, legend_inside, named_shape, owner_shape};

use crate::attribute::{Area, Attribute, Class, Colour, Point};
use crate::element::{Tag, close, open};
use crate::label::Label;
use crate::placing::{domains_before, legend_point, owns};
use crate::shapes::{write_box, write_label};
use fab_types::Control;
use platform::DownstreamPort;
use std::io;
use std::io::Write;

/// Writes the legend of a layout with these ports.
#[tactic(auto, unfolding(crate::specs::Legend::legend_figure))]
pub(crate) fn write_legend<W: Write>(out: &mut W, ports: &[DownstreamPort]) -> io::Result<()>
    ensures { OnOk result (Appends (W.contents out.old) (W.contents out.new) (text_of (legend_figure ports.now))) }
{
    let class = Attribute::Class(Class::Legend);
    open(out, Tag::Group, &[class, Attribute::FromPoint])?;
    write_legend_inside(out, ports)?;
    close(out, Tag::Group)
}

#[tactic(auto, unfolding(crate::specs::Legend::legend_inside))]
fn write_legend_inside<W: Write>(out: &mut W, ports: &[DownstreamPort]) -> io::Result<()>
    ensures { OnOk result (Appends (W.contents out.old) (W.contents out.new) (text_of (legend_inside ports.now))) }
{
    write_controls(out)?;
    write_egress(out)?;
    write_clear(out)?;
    write_label(out, legend_point(9), Label::Domains)?;
    write_domains(out, ports)
}

/// Writes the lines of the five controls that guard a port.
#[tactic(auto, unfolding(crate::specs::Legend::controls_shapes))]
fn write_controls<W: Write>(out: &mut W) -> io::Result<()>
    ensures { OnOk result (Appends (W.contents out.old) (W.contents out.new) (text_of controls_shapes)) }
{
    write_label(out, legend_point(0), Label::Controls)?;
    write_named(out, 1, Control::SourceValidation)?;
    write_named(out, 2, Control::TranslationBlocking)?;
    write_named(out, 3, Control::RequestRedirect)?;
    write_named(out, 4, Control::CompletionRedirect)?;
    write_named(out, 5, Control::UpstreamForwarding)
}

#[tactic(auto, unfolding(crate::specs::Legend::named_shape))]
fn write_named<W: Write>(out: &mut W, line: u16, control: Control) -> io::Result<()>
    ensures { OnOk result (Appends (W.contents out.old) (W.contents out.new) (text_of (named_shape line control))) }
{
    write_label(out, legend_point(line), Label::Named(control))
}

#[tactic(auto, unfolding(crate::specs::Legend::egress_shapes))]
fn write_egress<W: Write>(out: &mut W) -> io::Result<()>
    ensures { OnOk result (Appends (W.contents out.old) (W.contents out.new) (text_of egress_shapes)) }
{
    write_label(out, legend_point(6), Label::EgressNamed)?;
    write_label(out, legend_point(7), Label::Vectors)
}

/// Writes in red that a letter in red is of a control that is clear.
#[tactic(auto, unfolding(crate::specs::Legend::clear_shape))]
fn write_clear<W: Write>(out: &mut W) -> io::Result<()>
    ensures { OnOk result (Appends (W.contents out.old) (W.contents out.new) (text_of clear_shape)) }
{
    open(out, Tag::Group, &[Attribute::Fill(Colour::Red)])?;
    write_label(out, legend_point(8), Label::Clear)?;
    close(out, Tag::Group)
}

/// Writes a line for each domain that owns a port, by rising number.
fn write_domains<W: Write>(out: &mut W, ports: &[DownstreamPort]) -> io::Result<()>
    ensures { OnOk result (Appends (W.contents out.old) (W.contents out.new) (text_of (domain_shapes ports.now 32))) }
{
    for number in 0..32u8 {
        write_owner(out, ports, number)?;
    }
    Ok(())
}

#[tactic(auto, unfolding(crate::specs::Legend::owner_shape))]
fn write_owner<W: Write>(out: &mut W, ports: &[DownstreamPort], number: u8) -> io::Result<()>
    ensures { OnOk result (Appends (W.contents out.old) (W.contents out.new) (text_of (owner_shape ports.now number))) }
{
    if owns(ports, number) {
        let line = 10 + u16::from(domains_before(ports, number));
        write_domain(out, line, number)?;
    }
    Ok(())
}

/// Writes a square in the colour of a domain, and its number.
#[tactic(auto, unfolding(crate::specs::Legend::domain_shape))]
fn write_domain<W: Write>(out: &mut W, line: u16, number: u8) -> io::Result<()>
    ensures { OnOk result (Appends (W.contents out.old) (W.contents out.new) (text_of (domain_shape line number))) }
{
    let y = 32 + 18 * u32::from(line);
    let square = Area {
        corner: Point { x: 16, y: y - 11 },
        width: 12,
        height: 12,
    };
    write_box(out, square, Colour::Domain(number))?;
    write_label(out, Point { x: 34, y }, Label::Domain(number))
}
