//! Tests of runs over files, an input and an output in memory that fail at a call, and of the reasons why files are not
//! opened. Runs without faults are rows of `tx_rows`.
#![tactic(auto)]

#[cfg(test)]
mod ends;
#[cfg(test)]
mod fronts;
#[cfg(test)]
mod outside;
#[cfg(test)]
mod reasons;
#[cfg(test)]
mod slow;
