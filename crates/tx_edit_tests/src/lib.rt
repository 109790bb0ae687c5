//! Tests of calls below the session that no command shows: edits of several modifications, edits that are left out,
//! values at paths, stops, paths, bodies, buffers, generated documents, words with spaces, and trees that are evaluated
//! by their parts. What commands show are rows of `tx_rows`.
#![tactic(auto)]

#[cfg(test)]
mod documents;
#[cfg(test)]
mod edits;
#[cfg(test)]
mod generated;
#[cfg(test)]
mod kept;
#[cfg(test)]
mod leaving;
#[cfg(test)]
mod paths;
#[cfg(test)]
mod stops;
#[cfg(test)]
mod walks;
#[cfg(test)]
mod words;
