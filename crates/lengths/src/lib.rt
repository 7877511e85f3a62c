// The check of a length table: what the TLM segments of the main header say of the tile-parts, beside what stands there.
#![tactic(auto)]

pub mod check;
pub mod segments;
