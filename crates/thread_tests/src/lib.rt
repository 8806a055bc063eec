//! Tests of what the fabric in threads is made of, part by part, by public calls.
#![tactic(auto)]

#[cfg(test)]
mod counters;
#[cfg(test)]
mod crews;
#[cfg(test)]
mod injector_begins;
#[cfg(test)]
mod injector_records;
#[cfg(test)]
mod injector_scenes;
#[cfg(test)]
mod lanes;
#[cfg(test)]
mod locked_packets;
#[cfg(test)]
mod locked_scenes;
#[cfg(test)]
mod locked_threads;
#[cfg(test)]
mod plans;
#[cfg(test)]
mod relays;
#[cfg(test)]
mod rings;
#[cfg(test)]
mod strays;
#[cfg(test)]
mod violation_reports;
#[cfg(test)]
mod violation_threads;
