// How TLM entries without an index are numbered (docs/RULES.md, "TLM").
ghost use Rattle.std.specs.Prelude.{◌≡◌, ◌≤◌};
ghost use Rattle.header.specs.Tlm.{Accepted, entry_count};
ghost use Rattle.header.specs.Numbering.{numbering_of, next_number};

#[derive(Clone, Copy)]
pub enum Numbering {
    // On over the segments, in file order.
    CarriedOn,
    // From 0 in each segment.
    Restarting,
}

// As C gives it: 1 restarts; any other number carries on, which is 0.
impl From<u32> for Numbering {
    ghost from_gives = { λ number numbering. numbering ≡ numbering_of number };

    fn from(number: u32) -> Numbering {
        if number == 1 {
            Numbering::Restarting
        } else {
            Numbering::CarriedOn
        }
    }
}

// The number from which the next segment's entries are numbered, where this one's are numbered from `first` on.
pub fn next_number(
    codestream: &[u8],
    at: usize,
    count: usize,
    numbering: Numbering,
    first: usize,
) -> usize
    requires accepted { Accepted codestream.now at }
    requires count_value { count ≡ entry_count codestream.now at }
    requires first_bound { first ≤ 65_535 }
    ensures { result ≡ next_number numbering codestream.now at first }
{
    match numbering {
        Numbering::Restarting => 0,
        Numbering::CarriedOn if crate::tlm::index_size(codestream[at + 5]) == 0 => first + count,
        Numbering::CarriedOn => first,
    }
}
