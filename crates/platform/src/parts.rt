//! The parts of a platform.

use fab_types::{AcsControl, Bdf, DomainId, PortId};

/// The version of a layout text.
#[derive(Clone, Copy, Debug, PartialEq, Eq)]
pub enum LayoutVersion {
    /// Without egress control.
    One,
    /// With egress control.
    Two,
}

/// A switch of the tree, as a layout has it.
#[derive(Clone, Copy, Debug, PartialEq, Eq)]
pub struct Switch {
    /// Its upstream port.
    pub id: Bdf,
    /// The port above, or none for the switch below the root port.
    pub above: Option<PortId>,
}

/// A downstream port of a switch, as a layout has it.
/// It has its buses and its memory window (PCIe 4.0, 7.5.1.3), its ACS controls, and the domain that it is
/// dealt out to.
#[derive(Clone, Copy, Debug, PartialEq, Eq)]
pub struct DownstreamPort {
    /// The ID of the port.
    pub id: PortId,
    /// Secondary bus number, the least bus below.
    pub secondary: u8,
    /// Subordinate bus number, the greatest bus below.
    pub subordinate: u8,
    /// The first address of the window.
    pub base: u32,
    /// The last address of the window.
    pub limit: u32,
    /// Its ACS controls (PCIe 4.0, 7.7.8.3).
    pub controls: AcsControl,
    /// The domain that it is dealt out to.
    pub owner: DomainId,
    /// The Egress Control Vector (PCIe 4.0, 7.7.8.4), if one was given.
    /// It has a bit for each device number of the switch's bus. Without one all bits are 1.
    pub egress_vector: Option<u32>,
}

/// An endpoint function and its register page.
#[derive(Clone, Copy, Debug, PartialEq, Eq)]
pub struct EndpointFunction {
    /// The ID of the function.
    pub id: Bdf,
    /// The address of its page of 4,096 bytes.
    pub bar: u32,
}

/// What a page is mapped to.
#[derive(Clone, Copy, Debug, PartialEq, Eq)]
pub enum MapTarget {
    /// The frame of host memory of this number.
    Frame(u16),
    /// The register page of this function.
    Peer(Bdf),
}

/// What a mapping allows.
#[derive(Clone, Copy, Debug, PartialEq, Eq)]
pub struct Rights {
    /// May the page be read?
    pub read: bool,
    /// May the page be written?
    pub write: bool,
}

/// One kind of access.
#[derive(Clone, Copy, Debug, PartialEq, Eq)]
pub enum Access {
    /// It reads the page.
    Read,
    /// It writes the page.
    Write,
}

/// A page of a requester's addresses, and what it is mapped to.
#[derive(Clone, Copy, Debug, PartialEq, Eq)]
pub struct Mapping {
    /// The requester whose page it is.
    pub requester: Bdf,
    /// The number of the page: its address divided by 4,096.
    pub page: u64,
    /// What the page is mapped to.
    pub target: MapTarget,
    /// What the requester may do there.
    pub rights: Rights,
}

/// How many begins a domain may make.
#[derive(Clone, Copy, Debug, PartialEq, Eq)]
pub struct BudgetLine {
    /// The domain whose budget it is.
    pub domain: DomainId,
    /// How many begins it may make, 1 to 16,384.
    pub begins: u32,
}

/// The credits that each receiver of a link advertises at the start (PCIe 4.0, 2.6.1). A header
/// credit is one header, a data credit 16 bytes.
#[derive(Clone, Copy, Debug, PartialEq, Eq)]
pub struct CreditLimits {
    /// PH: headers of posted requests.
    pub posted_headers: u16,
    /// PD: data of posted requests.
    pub posted_data: u16,
    /// NPH: headers of non-posted requests.
    pub non_posted_headers: u16,
    /// NPD: data of non-posted requests.
    pub non_posted_data: u16,
    /// CPLH: headers of completions.
    pub completion_headers: u16,
    /// CPLD: data of completions.
    pub completion_data: u16,
}

/// The credits of both directions of a link.
#[derive(Clone, Copy, Debug, PartialEq, Eq)]
pub struct CreditLine {
    /// The lower end of the link: a function or the upstream port of a switch.
    pub id: Bdf,
    /// What each receiver of the link advertises at the start.
    pub limits: CreditLimits,
}
