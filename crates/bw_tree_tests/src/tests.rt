// Worked examples of what the contracts say, and what no contract says: that calls succeed, and each growth of memory
// refused in turn.
mod assertions;
mod consolidation;
mod cursors;
mod drops;
mod levels;
mod making;
mod naming;
mod pages;
mod refused;
mod routes;
mod scans;
mod shape;
mod splits;
mod trees;
