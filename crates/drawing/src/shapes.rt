//! The shapes that figures are made of.

ghost use Rattle.std.specs.Prelude.{OnOk};
ghost use Rattle.std.specs.Io.KnownBytes.{Appends};
ghost use Rattle.drawing.specs.Elements.{text_of};
ghost use Rattle.drawing.specs.Shapes.{box_shape, label_shape, line_shape};

use crate::attribute::{Area, Attribute, Colour, Point};
use crate::element::{Tag, close, open, write_bare};
use crate::label::Label;
use std::io;
use std::io::Write;

/// Writes a filled rectangle.
#[tactic(auto, unfolding(crate::specs::Shapes::box_shape))]
pub(crate) fn write_box<W: Write>(out: &mut W, area: Area, fill: Colour) -> io::Result<()>
    ensures { OnOk result (Appends (W.contents out.old) (W.contents out.new) (text_of (box_shape area fill))) }
{
    write_bare(
        out,
        Tag::Rect,
        &[
            Attribute::Covers(area),
            Attribute::Fill(fill),
            Attribute::Stroke(Colour::Black),
        ],
    )
}

/// Writes a line from a point down, so long.
#[tactic(auto, unfolding(crate::specs::Shapes::line_shape))]
pub(crate) fn write_line<W: Write>(out: &mut W, from: Point, length: u32) -> io::Result<()>
    ensures { OnOk result (Appends (W.contents out.old) (W.contents out.new) (text_of (line_shape from length))) }
{
    write_bare(
        out,
        Tag::Path,
        &[
            Attribute::Down(from, length),
            Attribute::Stroke(Colour::Black),
        ],
    )
}

/// Writes a line of text.
#[tactic(auto, unfolding(crate::specs::Shapes::label_shape))]
pub(crate) fn write_label<W: Write>(out: &mut W, point: Point, label: Label) -> io::Result<()>
    ensures { OnOk result (Appends (W.contents out.old) (W.contents out.new) (text_of (label_shape point label))) }
{
    open(out, Tag::Text, &[Attribute::At(point)])?;
    write!(out, "{label}")?;
    close(out, Tag::Text)
}
