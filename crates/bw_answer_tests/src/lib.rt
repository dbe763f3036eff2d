//! Tests of `bw_group` and `bw_answer` through their public items. They stand in a crate of their own, so that the gate
//! proves them over what it proved of the two, and not that again beside them.
#![tactic(auto)]

#[cfg(test)]
mod tests;
