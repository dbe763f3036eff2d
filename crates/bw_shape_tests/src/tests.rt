// Worked examples of what the contracts say, and what no contract says: that calls succeed, and each growth of memory
// refused in turn.
mod assertions;
mod leaves;
mod making;
mod merging;
mod naming;
mod refused;
mod refused_merges;
mod releasing;
mod scripts;
mod shapes;
mod sights;
mod steps;
mod sweeping;
mod tidying;
mod whole;
