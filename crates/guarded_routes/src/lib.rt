//! Where the packets of a guarded layout go: laws of what ports, hosts and functions do with them.
#![tactic(auto)]

mod laws;

pub use laws::{
    emissions_are_sound, functions_have_ways, functions_take, guarded_ports_do_what_fates_say,
    host_takes, one_link_below, ports_and_machines_test_alike, ports_pass,
    ports_share_the_owner_of_a_bus, upstream_ports_pass, ways_are_simple, ways_hold_their_function,
    what_goes_down_keeps_to_the_way, what_goes_up_keeps_to_the_way,
};
