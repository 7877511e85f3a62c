// What a reader asks of a file before it walks the header: the image's size and its components', the codestream's place,
// and how much of it to fetch.
#![tactic(auto)]

pub mod box_row;
pub mod box_step;
pub mod boxes;
pub mod components;
pub mod growth;
pub mod search;
pub mod siz;
