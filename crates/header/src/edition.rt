// The editions of the main header (docs/RULES.md, "Editions"), and what the newer one asks of CAP.
ghost use Rattle.std.specs.Prelude.{◌≡◌, ◌≤◌, length};
ghost use Rattle.header.specs.Tlm.{Within};
ghost use Rattle.header.specs.Walk.{walk_from};
ghost use Rattle.header.specs.Edition.{edition_of, announced, cap_fits, caps_in, capped};

use crate::parse::MainHeaderInfo;
use types::markers::CAP;
use types::{Reason, Refusal};

#[derive(Clone, Copy)]
pub enum Edition {
    // CAP is passed over as any segment.
    Older,
    // CAP stands in the header once where Rsiz announces it, and otherwise not.
    Newer,
}

// As C gives it: 1 is the newer; any other number the older, which is 0.
impl From<u32> for Edition {
    ghost from_gives = { λ number edition. edition ≡ edition_of number };

    fn from(number: u32) -> Edition {
        if number == 1 {
            Edition::Newer
        } else {
            Edition::Older
        }
    }
}

// Bit 14 of the number at bytes 6 and 7, which is Rsiz where SIZ is as long as it has to be.
fn announces_cap(codestream: &[u8]) -> bool
    requires { 8 ≤ length codestream.now }
    ensures { result ≡ announced codestream.now }
{
    numbers::read_u16(codestream, 6) / 0x4000 % 2 == 1
}

// Lcap counts itself, Pcap, and a word for each one of Pcap.
fn cap_fits(codestream: &[u8], at: usize) -> bool
    requires { Within codestream.now at }
    ensures { result ≡ cap_fits codestream.now at }
{
    let lcap = numbers::read_u16(codestream, at + 2) as u32;
    if lcap < 6 {
        return false;
    }
    lcap == 6 + 2 * u32::count_ones(numbers::read_u32(codestream, at + 4))
}

// What the newer edition makes of a header that the walk accepts.
pub fn test_caps(codestream: &[u8], info: MainHeaderInfo) -> Result<MainHeaderInfo, Refusal>
    requires { 8 ≤ length codestream.now }
    ensures { result ≡ capped (announced codestream.now) codestream.now (caps_in codestream.now (walk_from codestream.now 2).visits) info }
{
    let wanted = announces_cap(codestream);
    let mut at: usize = 2;
    let mut cap = None;
    while let Some(passed) = crate::walk::next_passed(codestream, at) {
        if passed.code == CAP {
            if cap.is_some() || !wanted {
                return Err(Refusal {
                    reason: Reason::CapOutOfPlace,
                    place: at as u64,
                });
            }
            cap = Some(at);
        }
        at = passed.next;
    }
    let Some(cap) = cap else {
        if wanted {
            return Err(Refusal {
                reason: Reason::CapOutOfPlace,
                place: 2,
            });
        }
        return Ok(info);
    };
    if !cap_fits(codestream, cap) {
        return Err(Refusal {
            reason: Reason::CapLengthWrong,
            place: cap as u64,
        });
    }
    Ok(info)
}
