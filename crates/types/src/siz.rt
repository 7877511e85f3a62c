// Where the fields of SIZ stand (ISO/IEC 15444-1, table A.9), counted from its marker.

// How many bytes the segment has behind its marker.
pub const LSIZ: usize = 2;
// Where the image ends on the reference grid: across,
pub const XSIZ: usize = 6;
// and down.
pub const YSIZ: usize = 10;
// Where it starts: across,
pub const XOSIZ: usize = 14;
// and down.
pub const YOSIZ: usize = 18;
// A tile's size: across,
pub const XTSIZ: usize = 22;
// and down.
pub const YTSIZ: usize = 26;
// Where the first tile starts, across; down is not asked for by itself.
pub const XTOSIZ: usize = 30;
// How many components.
pub const CSIZ: usize = 38;
// The first component: its bit depth and sign, in one byte, and how far its samples lie apart, across and down.
pub const SSIZ: usize = 40;
// A component's bytes; one follows the other.
pub const COMPONENT: usize = 3;
