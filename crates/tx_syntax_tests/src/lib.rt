//! Tests of the lowest crates and of the readers of both syntaxes, as far as no row of `tx_rows` shows them: counts,
//! lines of pieces, byte search, what is outside in memory, texts, labels and trees; each beginning of a tree, all short
//! strings, and the places of faults beside a slow search.
#![tactic(auto)]

#[cfg(test)]
mod beginnings;
#[cfg(test)]
mod counts;
#[cfg(test)]
mod fronts;
#[cfg(test)]
mod lines;
#[cfg(test)]
mod readers;
#[cfg(test)]
mod short_strings;
#[cfg(test)]
mod sinks;
#[cfg(test)]
mod stops;
#[cfg(test)]
mod stores;
#[cfg(test)]
mod trees;
