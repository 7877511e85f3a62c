// Where SIZ stands in a header, a field of it, and a tile along one axis.
ghost use Rattle.std.specs.Prelude.{◌≡◌, ◌+◌, ◌≤◌, length};
ghost use Rattle.numbers.specs.Bytes.{be};
ghost use Rattle.tile.specs.Siz.{marker};

// Where the SIZ marker stands in a header: directly behind SOC.
pub const MARKER: usize = 2;

// A tile along one axis.
#[derive(Clone, Copy)]
pub struct Span {
    pub from: u32,
    pub to: u32,
}

// A field of SIZ, by its place counted from the marker.
pub fn field(header: &[u8], place: usize) -> u32
    requires { marker + place + 4 ≤ length header.now }
    ensures { result ≡ be 4 header.now (marker + place) }
{
    numbers::read_u32(header, MARKER + place)
}
