//! Where links and the ports of switches stand in the tree of a layout.
#![tactic(auto)]

mod first_index;
mod laws;
mod links;
mod nodes;
mod places;
mod topology;

pub use laws::{
    links_have_ends_of_their_own, outputs_lead_to_links, places_are_found,
    ports_take_what_links_bring, root_sends_down,
};
pub use links::Link;
pub use nodes::LinkEnd;
pub use places::PortPlace;
pub use topology::Topology;
