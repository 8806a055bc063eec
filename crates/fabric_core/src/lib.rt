//! The fabric: domains, the links and switches between them, and what each event does.
#![tactic(auto)]

mod begins;
mod comparison;
mod eligible_classes;
mod ends;
mod event;
mod fabric;
mod laws;
mod misroute;
mod pass;
mod purge;
mod quiet;
mod station;
mod step;
mod waits;
mod whose;
mod wires;

pub use comparison::{Comparison, compare_runs};
pub use event::Event;
pub use fabric::Fabric;
pub use laws::{
    events_leave_other_domains_alone, every_event_keeps_a_fabric, every_event_keeps_the_invariant,
    fabrics_start_sound, guarded_fabrics_stay_sound, moves_end, new_packets_stand_behind,
    nothing_moves_elsewhere, only_non_posted_are_answered, other_domains_can_be_taken_out,
    packets_have_one_place, packets_keep_their_order, posted_packets_keep_to_their_way,
    stations_are_those_of_the_layout, still_is_consumed, still_is_empty, what_is_left_can_be_run,
};
pub use port_queue::EligibleClasses;
pub use purge::purge_run;
pub use station::Station;
