//! Tests of what is read of texts and of what stands for a layout's ports, by their public calls.
#![tactic(auto)]

#[cfg(test)]
mod access_control;
#[cfg(test)]
mod control_table;
mod example;

pub use example::EXAMPLE;

#[cfg(test)]
mod layouts;
#[cfg(test)]
mod memory;
#[cfg(test)]
mod routes;
#[cfg(test)]
mod tables;
