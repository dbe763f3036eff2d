//! Tests of `bw_text` and `bw_trace` through public items. They stand in a crate of their own, so that the gate proves them
//! over what it proved of these, and not that again beside them.
#![tactic(auto)]

#[cfg(test)]
mod tests;
