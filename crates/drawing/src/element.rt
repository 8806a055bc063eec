//! Elements, as they are spelled (XML 1.0, 3.1).

ghost use Rattle.std.specs.Prelude.{Some, OnOk};
ghost use Rattle.std.specs.List.{flat_map};
ghost use Rattle.std.specs.Io.KnownBytes.{Appends};
ghost use Rattle.drawing.specs.Attributes.{attribute_text};
ghost use Rattle.drawing.specs.Elements.{bare, end_tag, start_tag, tag_name, text_of};

use crate::attribute::Attribute;
use std::io::Write;
use std::{fmt, io};

/// The kinds of elements (SVG 1.1).
#[derive(Clone, Copy)]
pub enum Tag {
    /// The document.
    Svg,
    /// Elements that show one thing.
    Group,
    /// A rectangle.
    Rect,
    /// A line.
    Path,
    /// A line of text.
    Text,
    /// A part of a line of text.
    Span,
}

impl fmt::Display for Tag {
    ghost output = { λ tag. Some (tag_name tag) };

    fn fmt<W: fmt::Write>(&self, f: &mut fmt::Formatter<W>) -> fmt::Result {
        match self {
            Tag::Svg => write!(f, "svg"),
            Tag::Group => write!(f, "g"),
            Tag::Rect => write!(f, "rect"),
            Tag::Path => write!(f, "path"),
            Tag::Text => write!(f, "text"),
            Tag::Span => write!(f, "tspan"),
        }
    }
}

fn write_attributes<W: Write>(out: &mut W, attributes: &[Attribute]) -> io::Result<()>
    ensures { OnOk result (Appends (W.contents out.old) (W.contents out.new) (flat_map attribute_text attributes.now)) }
{
    for attribute in attributes {
        write!(out, "{attribute}")?;
    }
    Ok(())
}

/// Writes how an element begins.
pub(crate) fn open<W: Write>(out: &mut W, tag: Tag, attributes: &[Attribute]) -> io::Result<()>
    ensures { OnOk result (Appends (W.contents out.old) (W.contents out.new) (start_tag tag attributes.now)) }
{
    write!(out, "<{tag}")?;
    write_attributes(out, attributes)?;
    write!(out, ">")
}

/// Writes how it ends.
pub(crate) fn close<W: Write>(out: &mut W, tag: Tag) -> io::Result<()>
    ensures { OnOk result (Appends (W.contents out.old) (W.contents out.new) (end_tag tag)) }
{
    writeln!(out, "</{tag}>")
}

/// Writes an element without content.
pub(crate) fn write_bare<W: Write>(
    out: &mut W,
    tag: Tag,
    attributes: &[Attribute],
) -> io::Result<()>
    ensures { OnOk result (Appends (W.contents out.old) (W.contents out.new) (text_of (bare tag attributes.now))) }
{
    open(out, tag, attributes)?;
    close(out, tag)
}
