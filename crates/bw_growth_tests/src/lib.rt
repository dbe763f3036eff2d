//! Tests of an index of `bw_batch` that grows: as large as it may be, compared with the plain program, and where growths of
//! its memory are refused. They stand beside `bw_batch_tests`, so that the gate proves the two side by side.
#![tactic(auto)]

#[cfg(test)]
mod tests;
