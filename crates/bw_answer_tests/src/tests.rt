// Worked examples: that the calls succeed, which no contract says, and each growth of memory refused in turn.
mod assertions;
mod counts;
mod groups;
mod homes;
mod making;
mod reads;
