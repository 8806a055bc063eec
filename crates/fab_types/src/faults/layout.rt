//! Why a layout text was refused.

ghost use Rattle.std.specs.Prelude.{◌≡◌};
ghost use Rattle.fab_types.specs.Faults.{layout_cause_number, layout_cause_name};

use thiserror::Error;

/// What is wrong with a line of a layout text: the least that applies.
#[derive(Clone, Copy, Debug, PartialEq, Eq, Error)]
pub enum LayoutCause {
    /// The line has no known form, or breaks a rule that has no other number.
    #[error("the line is not understood")]
    Line,
    /// A limit is passed.
    #[error("a limit is passed")]
    Limit,
    /// The buses of two ports of one switch meet.
    #[error("the buses meet those of another port")]
    BusOverlap,
    /// The buses are not within those of the port above.
    #[error("the buses are outside those of the port above")]
    BusOutside,
    /// The windows of two ports of one switch meet.
    #[error("the window meets that of another port")]
    WindowOverlap,
    /// The window is not within that of the port above.
    #[error("the window is outside that of the port above")]
    WindowOutside,
    /// The owner is not that of the port above.
    #[error("the owner is not that of the port above")]
    OwnerMixed,
    /// The register page is not a page of the port's window.
    #[error("the register page is outside the port's window")]
    BarOutside,
    /// The mapping leads to another domain.
    #[error("the mapping leads to another domain")]
    MapForeign,
    /// The page is mapped already for this requester.
    #[error("the page is mapped already")]
    MapTwice,
    /// Bits of the ACS control are not known.
    #[error("ACS control bits are not known")]
    AcsUnknown,
    /// A credit limit is out of its range.
    #[error("a credit limit is out of range")]
    CreditRange,
    /// Memory was refused.
    #[error("out of memory")]
    NoMemory,
    /// An egress control vector lets requests through to a foreign port.
    /// Foreign is each port that isn't one of the same owner with a function below.
    #[error("the vector lets requests through to a foreign port")]
    EgressForeign,
}

impl LayoutCause {
    /// The number of the refusal.
    pub fn number(&self) -> u8
        ensures { result ≡ layout_cause_number self.now }
    {
        match self {
            LayoutCause::Line => 1,
            LayoutCause::Limit => 2,
            LayoutCause::BusOverlap => 3,
            LayoutCause::BusOutside => 4,
            LayoutCause::WindowOverlap => 5,
            LayoutCause::WindowOutside => 6,
            LayoutCause::OwnerMixed => 7,
            LayoutCause::BarOutside => 8,
            LayoutCause::MapForeign => 9,
            LayoutCause::MapTwice => 10,
            LayoutCause::AcsUnknown => 11,
            LayoutCause::CreditRange => 12,
            LayoutCause::NoMemory => 13,
            LayoutCause::EgressForeign => 14,
        }
    }

    /// The name of the refusal.
    pub fn name(&self) -> &'static str
        ensures { result.now ≡ layout_cause_name self.now }
    {
        match self {
            LayoutCause::Line => "Line",
            LayoutCause::Limit => "Limit",
            LayoutCause::BusOverlap => "BusOverlap",
            LayoutCause::BusOutside => "BusOutside",
            LayoutCause::WindowOverlap => "WindowOverlap",
            LayoutCause::WindowOutside => "WindowOutside",
            LayoutCause::OwnerMixed => "OwnerMixed",
            LayoutCause::BarOutside => "BarOutside",
            LayoutCause::MapForeign => "MapForeign",
            LayoutCause::MapTwice => "MapTwice",
            LayoutCause::AcsUnknown => "AcsUnknown",
            LayoutCause::CreditRange => "CreditRange",
            LayoutCause::NoMemory => "NoMemory",
            LayoutCause::EgressForeign => "EgressForeign",
        }
    }
}

/// Why a layout text was refused, and at which line.
#[derive(Clone, Copy, Debug, PartialEq, Eq, Error)]
#[error("line {line}: {cause}")]
pub struct LayoutFault {
    /// What is wrong with the line.
    pub cause: LayoutCause,
    /// The number of the line, counted from 1.
    pub line: u32,
}

impl LayoutFault {
    /// The number of the cause.
    pub fn number(&self) -> u8
        ensures { result ≡ layout_cause_number self.now.cause }
    {
        self.cause.number()
    }

    /// The name of the cause.
    pub fn name(&self) -> &'static str
        ensures { result.now ≡ layout_cause_name self.now.cause }
    {
        self.cause.name()
    }

    /// The first faulty line, counted from 1.
    pub fn line(&self) -> u32
        ensures { result ≡ self.now.line }
    {
        self.line
    }
}
