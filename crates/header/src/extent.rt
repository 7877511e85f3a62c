// Whether a prefix of a codestream holds the whole main header (docs/RULES.md, "Header extent"). It never refuses.
ghost use Rattle.std.specs.Prelude.{◌≡◌};
ghost use Rattle.header.specs.Extent.{extent_of};

use crate::step::HeaderStep;
use types::CodestreamOffset;
use types::markers::SOC;

pub fn main_header_extent(prefix: &[u8]) -> Option<CodestreamOffset>
    ensures { result ≡ extent_of prefix.now }
{
    if prefix.len() < 4 {
        return None;
    }
    if numbers::read_u16(prefix, 0) != SOC {
        return None;
    }
    let mut at: usize = 2;
    loop {
        let step = crate::step::header_step(prefix, at);
        let (HeaderStep::Segment(marker) | HeaderStep::Delimiter(marker)) = step else {
            if let HeaderStep::Sot = step {
                return Some(CodestreamOffset::at(at));
            }
            return None;
        };
        at = marker.next;
    }
}
