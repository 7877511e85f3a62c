// The product's archive: what a host calls, exported for C. Each function is the one of that name in crate host, and promises
// the same.
#![tactic(auto)]

pub mod assembly;
pub mod boxes;
pub mod by_tile;
pub mod check;
pub mod components;
pub mod extent;
pub mod find;
pub mod growth;
pub mod offsets;
pub mod order;
pub mod parse;
pub mod rewrite;
pub mod scan;
pub mod search;
pub mod siz;
pub mod split;
