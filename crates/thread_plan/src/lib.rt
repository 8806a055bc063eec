//! Which workers the fabric of a layout has in threads, and which rings lead from one to another.
#![tactic(auto)]

mod laws;
mod links;
mod pairs;
mod plan;
mod route;
mod tables;
mod workers;

pub use laws::{
    a_port_has_rings_for_its_lanes, a_port_has_the_number_of_its_place,
    a_port_is_dealt_an_end_for_each_lane, each_direction_has_its_rings, every_route_has_its_wire,
    rings_have_their_places, routes_go_along_links,
};
pub use plan::Plan;
