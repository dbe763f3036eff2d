// Worked examples of what the contracts say, and what no contract says: that batches are accepted, the printed
// texts, and which pages the tree below has.
mod assertions;
mod batches;
mod beside;
mod blocks;
mod gates;
mod merges;
mod options;
mod refusals;
mod running;
mod storms;
mod trees;
mod turns;
