//! Tests of packets, their log, credits and queues by their public calls.
#![tactic(auto)]

#[cfg(test)]
mod credits;
#[cfg(test)]
mod entries;
#[cfg(test)]
mod ordering_rules;
#[cfg(test)]
mod packets;
#[cfg(test)]
mod queues;
#[cfg(test)]
mod written_packets;
