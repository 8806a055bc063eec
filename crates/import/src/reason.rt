//! Why a layout hasn't a device.

ghost use Rattle.std.specs.Prelude.{◌≡◌, option_map};
ghost use Rattle.import.specs.Reasons.{machine_id, reason_number, reason_words};

use fab_types::{Bdf, LayoutCause};
use lspci::Location;
use std::fmt;

/// Where a device is in its machine, in plain numbers.
#[derive(Clone, Copy, Debug, PartialEq, Eq)]
pub struct MachineId {
    /// The number of its PCI segment.
    pub segment: u32,
    /// The 16 bits of its ID there.
    pub bits: u16,
}

impl MachineId {
    /// That of a location.
    pub fn of(location: &Location) -> MachineId
        ensures { result ≡ machine_id location.now }
    {
        MachineId {
            segment: location.segment,
            bits: location.id.bits(),
        }
    }
}

/// Written as `0000:00:1c.0`.
impl fmt::Display for MachineId {
    ghost use Rattle.std.specs.Prelude.{Some};
    ghost use Rattle.import.specs.Reasons.{machine_id_text};

    ghost output = { λ id. Some (machine_id_text id) };

    fn fmt<W: fmt::Write>(&self, f: &mut fmt::Formatter<W>) -> fmt::Result {
        let (segment, id) = (self.segment, Bdf::from_bits(self.bits));
        write!(f, "{segment:04x}:{id}")
    }
}

/// Why a layout hasn't a device.
#[derive(Clone, Copy, Debug, PartialEq, Eq)]
pub enum Reason {
    /// The device is of another PCI segment than the layout.
    Segment,
    /// It is a root port of another bus or segment.
    OtherRoot,
    /// It is none that a layout has.
    Kind,
    /// It is below a bridge to conventional PCI.
    Conventional,
    /// It is a virtual function.
    Virtual,
    /// It isn't below the root port that was asked for.
    Outside,
    /// It leads to the ports of the top switch.
    Above,
    /// It is a part of the root complex.
    Integrated,
    /// No port of the layout leads to it.
    Unreached,
    /// It isn't function 0; or an endpoint or upstream port isn't of device 0.
    Function,
    /// Its buses have no room in a layout.
    Buses,
    /// The port has no window below 4 GB.
    Window,
    /// The function has no page inside the port's window.
    Page,
    /// A rule of layouts is against it.
    Rule(LayoutCause),
}

impl Reason {
    /// The words of all but a rule of layouts, which has its own.
    fn words(&self) -> Option<&'static str>
        ensures { option_map (λ words. words.now) result ≡ reason_words self.now }
    {
        let words = match self {
            Reason::Segment => "it is of another PCI segment",
            Reason::OtherRoot => "it stands on another root bus: ask for it by --root",
            Reason::Kind => {
                "it is no port of PCI Express and no endpoint, but, say, a bridge to conventional PCI"
            }
            Reason::Conventional => "it is below a bridge to conventional PCI",
            Reason::Virtual => "it is a virtual function",
            Reason::Outside => "it is outside of the tree that was asked for",
            Reason::Above => "the ports of the layout stand below it",
            Reason::Integrated => "it is a part of the root complex: no port stands above it",
            Reason::Unreached => "no port of the layout leads to it",
            Reason::Function => "a layout has function 0 alone",
            Reason::Buses => "its buses have no room in a layout",
            Reason::Window => "it has no window for memory below 4 GB",
            Reason::Page => {
                "none of its base address registers begins a page in the window of the port above"
            }
            Reason::Rule(_) => return None,
        };
        Some(words)
    }

    /// A number for each reason; all rules of layouts have one.
    pub fn number(&self) -> u8
        ensures { result ≡ reason_number self.now }
    {
        match self {
            Reason::Segment => 1,
            Reason::OtherRoot => 2,
            Reason::Kind => 3,
            Reason::Conventional => 4,
            Reason::Virtual => 5,
            Reason::Outside => 6,
            Reason::Above => 7,
            Reason::Integrated => 8,
            Reason::Unreached => 9,
            Reason::Function => 10,
            Reason::Buses => 11,
            Reason::Window => 12,
            Reason::Page => 13,
            Reason::Rule(_) => 14,
        }
    }
}

impl fmt::Display for Reason {
    ghost output = { reason_words };

    fn fmt<W: fmt::Write>(&self, f: &mut fmt::Formatter<W>) -> fmt::Result {
        match (self.words(), self) {
            (Some(words), _) => write!(f, "{words}"),
            (None, Reason::Rule(cause)) => write!(f, "{cause}"),
            (None, _) => unreachable!(),
        }
    }
}

/// Why a layout hasn't a device: a reason of its own, or that of a port above it.
#[derive(Clone, Copy, Debug, PartialEq, Eq)]
pub struct Why {
    /// The port that has no place for this reason, and for which the device has none, if there is one.
    pub port: Option<MachineId>,
    /// The reason.
    pub reason: Reason,
}

impl fmt::Display for Why {
    ghost use Rattle.import.specs.Reasons.{why_words};

    ghost output = { why_words };

    fn fmt<W: fmt::Write>(&self, f: &mut fmt::Formatter<W>) -> fmt::Result {
        let reason = self.reason;
        match self.port {
            Some(port) => write!(f, "the port above it, {port}, has no place: {reason}"),
            None => write!(f, "{reason}"),
        }
    }
}

/// A device that a layout hasn't.
#[derive(Clone, Copy, Debug, PartialEq, Eq)]
pub struct LeftOut {
    /// The line of the dump at which the device begins, counted from 1.
    pub line: u32,
    /// Where the device is.
    pub location: Location,
    /// Is it no bridge, and no part of the board?
    pub is_endpoint: bool,
    /// Why the layout hasn't it.
    pub why: Why,
}
