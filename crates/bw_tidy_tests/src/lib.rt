//! Tests that tidying does the literal thing: the pages of an index, with their identifiers, are those of a plain program
//! that goes over all pages from left to right; and where a growth is refused, they come to be the same later.
#![tactic(auto)]

#[cfg(test)]
mod tests;
