//! What is wrong with a line, by it and the lines before it.

pub(crate) mod egress;
pub(crate) mod links;
pub(crate) mod mappings;
pub(crate) mod ports;
