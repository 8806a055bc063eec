//! What a platform is made of: switches, downstream ports, endpoint functions and mappings; where each of them stands,
//! who owns what (PCIe 4.0, 7.5.1.3), and what a domain starts from.
#![tactic(auto)]

mod egress;
mod guarded;
mod ids;
mod owners;
mod parts;
mod start;
mod tree;

pub use egress::{direct_to, goes_directly, holder_beside};
pub use guarded::are_guarded;
pub use ids::rising;
pub use owners::{bar_of, is_function, owner_of, owner_of_bus, owns_port, port_with_secondary};
pub use parts::{
    Access, BudgetLine, CreditLimits, CreditLine, DownstreamPort, EndpointFunction, LayoutVersion,
    MapTarget, Mapping, Rights, Switch,
};
pub use start::{Grant, Start};
pub use tree::{
    domain_of, find_port, has_root, id_below, internal_bus, is_on_bus, is_switch, is_taken,
    is_third_level, port_above, port_at, port_leading_to, switch_on,
};
