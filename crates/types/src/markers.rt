// Marker codes of ISO/IEC 15444-1, table A.2, and the fields of SOT (A.4.2), whose places count from its marker.

// Start of codestream.
pub const SOC: u16 = 0xff4f;
// Extended capabilities.
pub const CAP: u16 = 0xff50;
// Image and tile size.
pub const SIZ: u16 = 0xff51;
// Tile-part lengths.
pub const TLM: u16 = 0xff55;
// Start of tile-part.
pub const SOT: u16 = 0xff90;
// Its segment's bytes, the marker's among them.
pub const SOT_SEGMENT: usize = 12;
// Where the segment's length stands, which counts all but the marker.
pub const LSOT: usize = 2;
// What it has to be.
pub const LSOT_VALUE: u16 = 10;
// Where the tile's index stands.
pub const ISOT: usize = 4;
// Where the tile-part's length stands.
pub const PSOT: usize = 6;
// Where the tile-part's number among its tile's stands, in one byte.
pub const TPSOT: usize = 10;
// Where the number of its tile's tile-parts stands, in one byte.
pub const TNSOT: usize = 11;
// End of codestream.
pub const EOC: u16 = 0xffd9;
