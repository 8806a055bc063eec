//! What texts say.

ghost use Rattle.std.specs.Prelude.{Some};
ghost use Rattle.drawing.specs.Labels.{label_text};

use fab_types::{Bdf, Control};
use std::fmt;

/// What a text says.
#[derive(Clone, Copy)]
pub enum Label {
    /// The host and its bus.
    Host,
    /// That it is a switch.
    Switch,
    /// That it is a function.
    Function,
    /// The ID of what is shown.
    Id(Bdf),
    /// The bus of a switch's ports.
    Bus(u16),
    /// The first and the last bus below a port.
    Buses(u8, u8),
    /// The first address of a window.
    From(u32),
    /// The last one, or the address of a register page.
    Address(u32),
    /// The number of a domain.
    Domain(u8),
    /// An Egress Control Vector.
    Vector(u32),
    /// A control's letter.
    Letter(Control),
    /// The letter of egress control.
    Egress,
    // ---- of the legend
    /// The heading of the letters.
    Controls,
    /// A control's letter and name.
    Named(Control),
    /// Those of egress control.
    EgressNamed,
    /// What red letters mean.
    Clear,
    /// What stands behind the word `egress`.
    Vectors,
    /// The heading of the colours.
    Domains,
}

impl fmt::Display for Label {
    ghost output = { λ label. Some (label_text label) };

    fn fmt<W: fmt::Write>(&self, f: &mut fmt::Formatter<W>) -> fmt::Result {
        match self {
            Label::Host => write!(f, "host, bus 00"),
            Label::Switch => write!(f, "switch"),
            Label::Function => write!(f, "function"),
            Label::Id(id) => write!(f, "{id}"),
            Label::Bus(bus) => write!(f, "bus {bus:02x}"),
            Label::Buses(first, last) => {
                if *first == *last {
                    write!(f, "bus {first:02x}")
                } else {
                    write!(f, "bus {first:02x}-{last:02x}")
                }
            }
            Label::From(address) => write!(f, "{address:08x} -"),
            Label::Address(address) => write!(f, "{address:08x}"),
            Label::Domain(number) => write!(f, "domain {number}"),
            Label::Vector(vector) => write!(f, "egress {vector:08x}"),
            Label::Letter(control) => {
                let letter = control.letter();
                write!(f, "{letter}")
            }
            Label::Egress => write!(f, "E"),
            Label::Controls => write!(f, "ACS controls of a port"),
            Label::Named(control) => {
                let (letter, name) = (control.letter(), control.name());
                write!(f, "{letter} {name}")
            }
            Label::EgressNamed => write!(f, "E P2P Egress Control"),
            Label::Clear => write!(f, "in red where they are clear"),
            Label::Vectors => write!(f, "egress: Egress Control Vector"),
            Label::Domains => write!(f, "domains"),
        }
    }
}
