// One tile as a codestream of its own: where it lies, the header rewritten for it, and header, tile-parts and EOC put together.
#![tactic(auto)]

pub mod annex_b;
pub mod assembly;
pub mod original;
pub mod rewrite;
pub mod rules;
pub mod siz;
