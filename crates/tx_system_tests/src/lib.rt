//! Tests of the edge to the system: saves at which each step fails in turn, over files in memory; saves into a
//! real folder; devices that fail or hold bytes back.
#![tactic(auto)]

#[cfg(test)]
mod devices;
#[cfg(test)]
mod fake_files;
#[cfg(test)]
mod real_files;
#[cfg(test)]
mod steps;
