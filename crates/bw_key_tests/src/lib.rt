//! Tests of `bw_key` through its public items. They stand in a crate of their own, so that the gate proves them over
//! what it proved of `bw_key`, and not that again beside them.
#![tactic(auto)]

#[cfg(test)]
mod tests;
