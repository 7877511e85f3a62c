// All that a host calls, as thin calls on numbers and byte slices; crate host_c exports them for C. Each answers 0 where
// it accepts, or the refusal's number with the place in the first number lent; the other numbers then stay. What a function that
// never refuses answers is said above it.
#![tactic(auto)]

pub mod assembly;
pub mod boxes;
pub mod by_tile;
pub mod check;
pub mod components;
pub mod extent;
pub mod find;
pub mod growth;
pub mod offsets;
pub mod order;
pub mod parse;
pub mod rewrite;
pub mod scan;
pub mod search;
pub mod siz;
pub mod split;
