// Worked examples of pictures, and what no contract says: that calls succeed, and each growth of memory refused in
// turn.
mod assertions;
mod keys;
mod making;
mod refused;
mod tags;
mod texts;
mod trees;
