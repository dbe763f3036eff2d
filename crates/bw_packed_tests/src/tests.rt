// Worked examples of what the contracts say, and what no contract says: that calls succeed, the memory that they take, and
// each growth refused in turn.
mod assertions;
mod lists;
mod making;
mod memory;
mod pairs;
