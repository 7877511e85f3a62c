// The index by tile (docs/RULES.md, "An index by tile"): a table's entries by number, tile by tile, each tile's in the table's order. Made,
// extended as entries are appended, asked for a tile's run, and the run's entries given as rows.
#![tactic(auto)]

pub mod entries;
pub mod extend;
pub mod keys;
pub mod merge;
pub mod run;
pub mod sort;
