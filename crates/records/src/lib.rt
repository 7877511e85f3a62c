// Tables lent as slices of tile-part records: the scan, the reading of the main header, the order of a tile's tile-parts and the index
// by tile, by the functions that do it for rows (crates parts, header and index), and tables of a program's own.
#![tactic(auto)]

pub mod by_tile;
pub mod main_header;
pub mod order;
pub mod scan;
pub mod tables;
