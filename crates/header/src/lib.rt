// The main header of a codestream: one step over it, how far it reaches in a prefix, and its reading: the first SOT, the
// decode header, the TLM records; and where a marker stands in it.
#![tactic(auto)]

pub mod edition;
pub mod extent;
pub mod find;
pub mod numbering;
pub mod parse;
pub mod reading;
pub mod step;
pub mod strip;
pub mod tlm;
pub mod walk;
