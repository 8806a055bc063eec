//! Tests of ports, of domains and of fabrics by public calls, of what no text of a run shows: turns, lists of single
//! events, runs without the events of other domains, and where packets stand.
#![tactic(auto)]

#[cfg(test)]
mod fakes;
#[cfg(test)]
mod lists;
#[cfg(test)]
mod moves;
#[cfg(test)]
mod places;
#[cfg(test)]
mod taken_out;
#[cfg(test)]
mod tenants;
#[cfg(test)]
mod turns;
