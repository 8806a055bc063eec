//! What each form of line says.

use fab_types::Bdf;

/// What a `switch` line says that isn't the root's.
#[derive(Clone, Copy, Debug, PartialEq, Eq)]
pub struct SwitchText {
    /// The ID of its upstream port.
    pub id: Bdf,
    /// The port above it.
    pub above: Bdf,
}

/// What a `port` line says.
#[derive(Clone, Copy, Debug, PartialEq, Eq)]
pub struct PortText {
    /// The ID of the port.
    pub id: Bdf,
    /// Secondary bus number, the least bus below.
    pub secondary: u8,
    /// Subordinate bus number, the greatest bus below.
    pub subordinate: u8,
    /// The first address of its window.
    pub base: u32,
    /// The last address of its window.
    pub limit: u32,
    /// The bits of its ACS controls.
    pub controls: u8,
    /// The number of the domain that owns it.
    pub owner: u32,
}

/// What a `function` line says.
#[derive(Clone, Copy, Debug, PartialEq, Eq)]
pub struct FunctionText {
    /// The ID of the function.
    pub id: Bdf,
    /// The address of its register page.
    pub bar: u32,
}

/// What a `map` line maps to.
#[derive(Clone, Copy, Debug, PartialEq, Eq)]
pub enum TargetText {
    /// The frame of host memory of this number.
    Frame(u32),
    /// The register page of this function.
    Peer(Bdf),
}

/// What a `map` line allows.
#[derive(Clone, Copy, Debug, PartialEq, Eq)]
pub struct RightsText {
    /// May the page be read?
    pub read: bool,
    /// May the page be written?
    pub write: bool,
}

/// What a `map` line says.
#[derive(Clone, Copy, Debug, PartialEq, Eq)]
pub struct MapText {
    /// The requester whose page it is.
    pub requester: Bdf,
    /// The number of the page: its address divided by 4,096.
    pub page: u64,
    /// What the page is mapped to.
    pub target: TargetText,
    /// What the requester may do there.
    pub rights: RightsText,
}

/// What a `budget` line says.
#[derive(Clone, Copy, Debug, PartialEq, Eq)]
pub struct BudgetText {
    /// The number of the domain.
    pub domain: u32,
    /// How many begins it may make.
    pub begins: u32,
}

/// What a `credit` line says.
#[derive(Clone, Copy, Debug, PartialEq, Eq)]
pub struct CreditText {
    /// The lower end of the link.
    pub id: Bdf,
    /// PH, in headers.
    pub posted_headers: u32,
    /// PD, in units of 4 DW.
    pub posted_data: u32,
    /// NPH, in headers.
    pub non_posted_headers: u32,
    /// NPD, in units of 4 DW.
    pub non_posted_data: u32,
    /// CPLH, in headers.
    pub completion_headers: u32,
    /// CPLD, in units of 4 DW.
    pub completion_data: u32,
}

/// What an `egress` line says.
#[derive(Clone, Copy, Debug, PartialEq, Eq)]
pub struct EgressText {
    /// The ID of the port.
    pub port: Bdf,
    /// Its Egress Control Vector, a bit for each device number.
    pub vector: u32,
}

/// What a line says: a variant for each form.
#[derive(Clone, Copy, Debug, PartialEq, Eq)]
pub enum LayoutLine {
    /// `frames`: how many frames of host memory there are.
    Frames(u32),
    /// `switch` with `root`: the ID of the switch below the root port.
    Root(Bdf),
    /// `switch` with a port: a switch below that.
    Switch(SwitchText),
    /// `port`: a downstream port of a switch.
    Port(PortText),
    /// `function`: an endpoint function.
    Function(FunctionText),
    /// `map`: a page of a requester's addresses.
    Map(MapText),
    /// `budget`: how often a domain may begin.
    Budget(BudgetText),
    /// `credit`: the credits of a link.
    Credit(CreditText),
    /// `egress`: the Egress Control Vector of a port.
    Egress(EgressText),
}
