// Batches posted to the pages of a tree, adopted, and then accepted or undone.
mod all_words;
mod assertions;
mod beside;
mod consolidation;
mod half_done;
mod making;
mod merging;
mod rows;
mod scripts;
mod shapes;
mod side_by_side;
mod sights;
mod states;
mod sweeping;
mod tidying;
mod written_leaves;
