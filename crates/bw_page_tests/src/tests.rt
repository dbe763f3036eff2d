// Worked examples of what the contracts say, and what no contract says: that calls succeed, which of them take no
// memory, and each growth of memory refused in turn.
mod assertions;
mod cuts;
mod drops;
mod inners;
mod kept;
mod largest;
mod leaves;
mod making;
mod places;
mod refused;
mod separators;
