//! Tests of what views return and no command shows. What commands show of them are rows of `tx_rows`.
#![tactic(auto)]

#[cfg(test)]
mod answers;
