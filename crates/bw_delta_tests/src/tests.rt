// Worked examples of what the contracts say, and what no contract says: that calls succeed, and each growth of memory
// refused in turn.
mod arenas;
mod assertions;
mod drops;
mod making;
mod many_changes;
mod merges;
mod readings;
mod refused;
mod replays;
mod writes;
