//! Tests of values, as far as no row of `tx_rows` shows them: environments, origins and places, clusters of the
//! longest texts, sides and columns of tables, keys and typed characters; and of the helper of tables, on which tests
//! of other crates rest.
#![tactic(auto)]

#[cfg(test)]
mod clusters;
#[cfg(test)]
mod environments;
#[cfg(test)]
mod keys;
#[cfg(test)]
mod origins;
#[cfg(test)]
mod rows;
#[cfg(test)]
mod tables;
