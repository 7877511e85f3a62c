// The TLM segments by their Ztlm (docs/RULES.md, "Length table check"): where each stands, and what of them is refused.
ghost use Rattle.std.specs.Prelude.{◌≡◌, ◌≤◌, length};
ghost use Rattle.lengths.specs.Places.{Blank, Noted, NotedIf, found, numbered};

use header::numbering::Numbering;
use types::{CodestreamOffset, Reason, Refusal};

// The walk from the SIZ marker on. Notes where the segment of each Ztlm stands, and 0 where there is none, as an array of options takes
// longer to clear. 32 is given only where the walk accepts.
pub fn find_segments(header: &[u8], places: &mut [usize; 256]) -> Result<CodestreamOffset, Refusal>
    requires in_bounds { 2 ≤ length header.now }
    requires blank { Blank places.old }
    ensures value { result ≡ found header.now }
    ensures noted_if { NotedIf header.now result places.new }
{
    let mut at: usize = 2;
    let mut again = None; // each Ztlm was used once so far
    while let Some(passed) = header::walk::walk_step(header, at)? {
        if passed.tlm.is_some() {
            let z = header::tlm::ztlm_at(header, at) as usize;
            if places[z] == 0 {
                places[z] = at;
            } else if again.is_none() {
                again = Some(at);
            }
        }
        at = passed.next;
    }
    if let Some(second) = again {
        return Err(Refusal {
            reason: Reason::TlmNumberRepeated,
            place: second as u64,
        });
    }
    Ok(CodestreamOffset::at(at))
}

// 26 at the first segment, in the order of Ztlm, whose entries would get a number past 65,534.
pub fn test_numbers(header: &[u8], places: &[usize; 256]) -> Result<(), Refusal>
    requires { Noted header.now places.now }
    ensures { result ≡ numbered header.now }
{
    let mut first: usize = 0; // the number of the next segment's first entry
    for &at in places {
        if at != 0 {
            let count = header::tlm::entry_count(header, at);
            first = header::numbering::next_number(header, at, count, Numbering::CarriedOn, first);
            if 65_535 < first {
                return Err(Refusal {
                    reason: Reason::TlmTooManyEntries,
                    place: at as u64,
                });
            }
        }
    }
    Ok(())
}
