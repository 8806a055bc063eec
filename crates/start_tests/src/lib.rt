//! Tests of fabrics in threads, by their public calls: started and stopped.
#![tactic(auto)]

#[cfg(test)]
mod begins;
#[cfg(test)]
mod floods;
#[cfg(test)]
mod gates;
#[cfg(test)]
mod largest;
#[cfg(test)]
mod programs;
#[cfg(test)]
mod scenes;
#[cfg(test)]
mod starts;
#[cfg(test)]
mod storm;
