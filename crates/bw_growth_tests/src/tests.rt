// What no contract says: that batches of all sizes are accepted, over as many leaves, and what they take of a heap; each
// growth of memory refused in turn.
mod assertions;
mod compared;
mod drains;
mod drops;
mod gaps;
mod given;
mod heaps;
mod largest;
mod leaves;
mod merges;
mod numbers;
mod random;
mod refused;
mod sizes;
mod trees;
