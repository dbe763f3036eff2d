// Worked examples of what the contracts say, and what no contract says: that calls succeed, the printed texts, the
// bytes that a value takes, and each growth of memory refused in turn.
mod actions;
mod assertions;
mod making;
mod pairs;
mod randomly;
mod ranges;
mod reference;
mod refused;
mod shown;
mod values;
