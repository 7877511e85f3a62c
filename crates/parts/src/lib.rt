// Tile-parts: the records of a codestream's tile-parts, found from SOT to SOT, and one tile's buffer taken apart again.
#![tactic(auto)]

pub mod fill;
pub mod order;
pub mod scan;
pub mod split;
pub mod step;
pub mod walk;
