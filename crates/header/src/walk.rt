// One step of the header walk (docs/RULES.md, "Header walk"): what is passed, the first SOT, or why the walk is refused.
ghost use Rattle.std.specs.Prelude.{◌≡◌, ◌≤◌, length};
ghost use Rattle.header.specs.Tlm.{Within};
ghost use Rattle.header.specs.Walk.{cut_at, passed_at, walk_step_at, next_at};

use crate::step::{HeaderStep, Marker};
use types::markers::TLM;
use types::{Reason, Refusal};

// A segment or a delimiter that was passed.
#[derive(Clone, Copy)]
pub struct Passed {
    pub next: usize,
    pub code: u16,
    // A delimiter whose high byte is not FF.
    pub is_filler: bool,
    // Of a TLM segment, how many entries it holds.
    pub tlm: Option<usize>,
}

fn cut_at(codestream: &[u8], at: usize) -> Refusal
    requires { at ≤ length codestream.now }
    ensures { result ≡ cut_at codestream.now at }
{
    let length = codestream.len();
    if 2 <= length - at {
        Refusal {
            reason: Reason::SegmentPastEnd,
            place: at as u64,
        }
    } else {
        Refusal {
            reason: Reason::NoTilePart,
            place: length as u64,
        }
    }
}

fn pass_segment(codestream: &[u8], at: usize, marker: Marker) -> Result<Option<Passed>, Refusal>
    requires { Within codestream.now at }
    ensures { result ≡ passed_at codestream.now at marker }
{
    let mut tlm = None;
    if marker.code == TLM {
        tlm = Some(crate::tlm::tlm_at(codestream, at)?);
    }
    Ok(Some(Passed {
        next: marker.next,
        code: marker.code,
        is_filler: false,
        tlm,
    }))
}

// None at the first SOT.
pub fn walk_step(codestream: &[u8], at: usize) -> Result<Option<Passed>, Refusal>
    requires { at ≤ length codestream.now }
    ensures { result ≡ walk_step_at codestream.now at }
{
    let step = crate::step::header_step(codestream, at);
    let HeaderStep::Segment(marker) = step else {
        let HeaderStep::Delimiter(marker) = step else {
            if let HeaderStep::Sot = step {
                return Ok(None);
            }
            return Err(cut_at(codestream, at));
        };
        return Ok(Some(Passed {
            next: marker.next,
            code: marker.code,
            is_filler: !marker.high_ff,
            tlm: None,
        }));
    };
    pass_segment(codestream, at, marker)
}

// What is passed there, in a header that the walk is known to accept; None at its end.
pub fn next_passed(codestream: &[u8], at: usize) -> Option<Passed>
    requires { at ≤ length codestream.now }
    ensures { result ≡ next_at codestream.now at }
{
    walk_step(codestream, at).unwrap_or(None)
}
