//! The attributes of elements.

ghost use Rattle.std.specs.Prelude.{Some};
ghost use Rattle.drawing.specs.Attributes.{attribute_text, class_name, colour_text};

use crate::control::Letters;
use fab_types::{AcsControl, Bdf};
use std::fmt;

/// A point, in pixels from the upper left corner.
#[derive(Clone, Copy)]
pub struct Point {
    /// How far to the right.
    pub x: u32,
    /// How far down.
    pub y: u32,
}

/// A rectangle.
#[derive(Clone, Copy)]
pub struct Area {
    /// The upper left corner.
    pub corner: Point,
    /// In pixels, to the right.
    pub width: u32,
    /// In pixels, down.
    pub height: u32,
}

/// What an element shows.
#[derive(Clone, Copy)]
pub enum Class {
    /// The host, with the link below it.
    Host,
    /// A switch.
    Switch,
    /// A downstream port.
    Port,
    /// The link below a port.
    Link,
    /// A function.
    Function,
    /// The legend.
    Legend,
}

impl fmt::Display for Class {
    ghost output = { λ class. Some (class_name class) };

    fn fmt<W: fmt::Write>(&self, f: &mut fmt::Formatter<W>) -> fmt::Result {
        match self {
            Class::Host => write!(f, "host"),
            Class::Switch => write!(f, "switch"),
            Class::Port => write!(f, "port"),
            Class::Link => write!(f, "link"),
            Class::Function => write!(f, "function"),
            Class::Legend => write!(f, "legend"),
        }
    }
}

/// A colour.
#[derive(Clone, Copy)]
pub enum Colour {
    /// Of the background.
    White,
    /// Of switches.
    Grey,
    /// Of lines, and of controls that are set.
    Black,
    /// Of controls that are clear.
    Red,
    /// That of the domain of this number.
    Domain(u8),
}

impl fmt::Display for Colour {
    ghost output = { λ colour. Some (colour_text colour) };

    /// As SVG names it. Domains have hues of their own; those of even numbers are darker.
    fn fmt<W: fmt::Write>(&self, f: &mut fmt::Formatter<W>) -> fmt::Result {
        match self {
            Colour::White => write!(f, "#ffffff"),
            Colour::Grey => write!(f, "#eeeeee"),
            Colour::Black => write!(f, "#000000"),
            Colour::Red => write!(f, "#d00000"),
            Colour::Domain(domain) => {
                let number = u32::from(*domain);
                let (hue, light) = (number * 137 % 360, 78 + number % 2 * 10);
                write!(f, "hsl({hue},70%,{light}%)")
            }
        }
    }
}

/// An attribute of an element.
#[derive(Clone, Copy)]
pub enum Attribute {
    /// The namespace of SVG.
    Namespace,
    /// The width and the height of the drawing.
    Size(u32, u32),
    /// The part of the plane that it shows, from 0.
    ViewBox(u32, u32),
    /// The font of all text, which is centred on its point.
    Font,
    /// Text begins at its point.
    FromPoint,
    /// What the element shows.
    Class(Class),
    /// The ID of what the element shows.
    Id(Bdf),
    /// The number of the domain that owns it.
    Owner(u8),
    /// The controls of a port.
    Controls(AcsControl),
    /// Where a text stands.
    At(Point),
    /// What a rectangle covers.
    Covers(Area),
    /// A line from a point down, so long.
    Down(Point, u32),
    /// The colour of its inside, and of text.
    Fill(Colour),
    /// The colour of its lines.
    Stroke(Colour),
}

impl fmt::Display for Attribute {
    ghost output = { λ attribute. Some (attribute_text attribute) };

    /// With a blank in front, as ` class="port"`.
    fn fmt<W: fmt::Write>(&self, f: &mut fmt::Formatter<W>) -> fmt::Result {
        match self {
            Attribute::Namespace => write!(f, " xmlns=\"http://www.w3.org/2000/svg\""),
            Attribute::Size(width, height) => write!(f, " width=\"{width}\" height=\"{height}\""),
            Attribute::ViewBox(width, height) => write!(f, " viewBox=\"0 0 {width} {height}\""),
            Attribute::Font => {
                write!(
                    f,
                    " font-family=\"monospace\" font-size=\"12\" text-anchor=\"middle\""
                )
            }
            Attribute::FromPoint => write!(f, " text-anchor=\"start\""),
            Attribute::Class(class) => write!(f, " class=\"{class}\""),
            Attribute::Id(id) => write!(f, " data-id=\"{id}\""),
            Attribute::Owner(domain) => write!(f, " data-owner=\"{domain}\""),
            Attribute::Controls(controls) => {
                let letters = Letters(*controls);
                write!(f, " data-controls=\"{letters}\"")
            }
            Attribute::At(point) => {
                let (x, y) = (point.x, point.y);
                write!(f, " x=\"{x}\" y=\"{y}\"")
            }
            Attribute::Covers(area) => {
                let (x, y, width, height) = (area.corner.x, area.corner.y, area.width, area.height);
                write!(f, " x=\"{x}\" y=\"{y}\"")?;
                write!(f, " width=\"{width}\" height=\"{height}\"")
            }
            Attribute::Down(point, length) => {
                let (x, y) = (point.x, point.y);
                write!(f, " d=\"M{x} {y}v{length}\"")
            }
            Attribute::Fill(colour) => write!(f, " fill=\"{colour}\""),
            Attribute::Stroke(colour) => write!(f, " stroke=\"{colour}\""),
        }
    }
}
