// One step over the main header: what stands at a position (docs/RULES.md, "Header walk").
ghost use Rattle.std.specs.Prelude.{◌≡◌, ◌≤◌, length};
ghost use Rattle.header.specs.Step.{passing, delimits, step_at};

use types::markers::SOT;

// A marker that a step passes, with what belongs to it, and where the step goes on.
#[derive(Clone, Copy)]
pub struct Marker {
    pub code: u16,
    pub high_ff: bool,
    pub next: usize,
}

impl Marker {
    fn new(code: u16, next: usize) -> Marker
        ensures { result ≡ passing code next }
    {
        Marker {
            code,
            high_ff: code / 256 == 0xff,
            next,
        }
    }
}

#[derive(Clone, Copy)]
pub enum HeaderStep {
    Sot,
    // A marker of two bytes.
    Delimiter(Marker),
    // A marker and as many bytes as its length field says.
    Segment(Marker),
    // The bytes end before it does.
    CutShort,
}

// EPH or a reserved marker without a segment, by the low byte alone: the high byte is not looked at.
fn is_delimiter(marker: u16) -> bool
    ensures { result ≡ delimits marker }
{
    let low = marker % 256;
    low == 0x92 || (0x30 <= low && low <= 0x3f)
}

pub fn header_step(header: &[u8], at: usize) -> HeaderStep
    requires { at ≤ length header.now }
    ensures { result ≡ step_at header.now at }
{
    if header.len() - at < 2 {
        return HeaderStep::CutShort;
    }
    let marker = numbers::read_u16(header, at);
    if marker == SOT {
        return HeaderStep::Sot;
    }
    if is_delimiter(marker) {
        return HeaderStep::Delimiter(Marker::new(marker, at + 2));
    }
    if header.len() - at < 4 {
        return HeaderStep::CutShort;
    }
    let whole = 2 + numbers::read_u16(header, at + 2) as usize;
    if header.len() - at < whole {
        return HeaderStep::CutShort;
    }
    HeaderStep::Segment(Marker::new(marker, at + whole))
}
