// A length table beside the tile-parts that stand there (docs/RULES.md, "Length table check").
ghost use Rattle.std.specs.Prelude.{◌≡◌, ◌≤◌, length, Ok};
ghost use Rattle.header.specs.Walk.{at_first_sot, walk_from};
ghost use Rattle.header.specs.Parse.{read_as};
ghost use Rattle.parts.specs.Scan.{scan_step_at, scan_from};
ghost use Rattle.lengths.specs.Segments.{numbers_end};
ghost use Rattle.lengths.specs.Places.{Noted};
ghost use Rattle.lengths.specs.Check.{pair_of, said, listed, standing, compared, behind_scan, behind_header, checked};
ghost use Rattle.lengths.specs.Agree.{agreed_by, stop_at, settled};

use header::numbering::Numbering;
use types::{CodestreamOffset, Refusal, TilePartEntry};

// What is said of a tile-part by the table, or by its SOT.
#[derive(Clone, Copy)]
pub struct Said {
    pub tile: u16,
    pub length: u64,
}

impl From<TilePartEntry> for Said {
    ghost from_gives = { λ entry what. what ≡ said (pair_of entry) };

    fn from(entry: TilePartEntry) -> Said {
        Said {
            tile: entry.tile_index,
            length: entry.length,
        }
    }
}

#[derive(Clone, Copy)]
pub struct Difference {
    // The entry's number, from 0, over all segments.
    pub number: u64,
    // Where its tile-part stands, or would stand.
    pub offset: CodestreamOffset,
    // None: there are no more of them.
    pub listed: Option<Said>,
    pub standing: Option<Said>,
}

// The entry with which the comparison stopped.
#[derive(Clone, Copy)]
struct Stop {
    number: u64,
    listed: Option<Said>,
}

// Where the tile-part that stands there ends, if the entry says the same of it.
fn agree(codestream: &[u8], at: usize, entry: TilePartEntry) -> Option<usize>
    ensures { result ≡ agreed_by (pair_of entry) (scan_step_at codestream.now at) }
{
    let part = parts::step::scan_step(codestream, at).unwrap_or(None)?;
    if entry.tile_index == part.tile_index && entry.length == part.length {
        Some(types::end_of(part).position())
    } else {
        None
    }
}

fn stop_at(number: u64, entry: TilePartEntry) -> Stop
    ensures { result ≡ stop_at number (pair_of entry) }
{
    Stop {
        number,
        listed: Some(Said::from(entry)),
    }
}

// What is answered where the comparison stopped at a position. The scan goes on from there, as it may be refused behind the first entry
// that differs.
fn settle(codestream: &[u8], at: usize, stop: Stop) -> Result<Option<Difference>, Refusal>
    ensures { result ≡ behind_scan (scan_from codestream.now at).ended (Ok (settled stop at (standing codestream.now at))) }
{
    let left = parts::walk::judge(codestream, at)?;
    let mut standing = None;
    if left != 0 {
        standing = Some(Said::from(parts::step::part_at(codestream, at)));
    } else if stop.listed.is_none() {
        return Ok(None);
    }
    Ok(Some(Difference {
        number: stop.number,
        offset: CodestreamOffset::at(at),
        listed: stop.listed,
        standing,
    }))
}

// The entries in the order of Ztlm, segment by segment, each beside the tile-part that stands where the one before ended.
fn compare(
    header: &[u8],
    places: &[usize; 256],
    codestream: &[u8],
    first_sot: CodestreamOffset,
) -> Result<Option<Difference>, Refusal>
    requires noted { Noted header.now places.now }
    requires header_value { numbers_end header.now ≡ at_first_sot }
    ensures { result ≡ behind_scan (scan_from codestream.now first_sot.0).ended (compared 0 first_sot.0 (listed header.now) (standing codestream.now first_sot.0)) }
{
    let mut at = first_sot.position();
    let mut number: u64 = 0;
    let mut first: usize = 0; // the number of the next segment's first entry without an index
    let stop = 'table: {
        for &segment in places {
            if segment != 0 {
                let count = header::tlm::entry_count(header, segment);
                for i in 0..count {
                    let offset = CodestreamOffset::at(at);
                    let entry = header::tlm::tlm_entry(header, segment, first, i, offset);
                    let Some(end) = agree(codestream, at, entry) else {
                        break 'table stop_at(number, entry);
                    };
                    at = end;
                    number += 1;
                }
                first = header::numbering::next_number(
                    header,
                    segment,
                    count,
                    Numbering::CarriedOn,
                    first,
                );
            }
        }
        Stop {
            number,
            listed: None,
        }
    };
    settle(codestream, at, stop)
}

// Behind a front that is sound.
fn check_table(header: &[u8], codestream: &[u8]) -> Result<Option<Difference>, Refusal>
    requires { 2 ≤ length header.now }
    ensures { result ≡ behind_header header.now codestream.now (read_as header.now (walk_from header.now 2) (walk_from header.now 2).ended) }
{
    let mut places = [0; 256];
    let first_sot = crate::segments::find_segments(header, &mut places)?;
    crate::segments::test_numbers(header, &places)?;
    compare(header, &places, codestream, first_sot)
}

// The header is read of the first `region` bytes of the codestream, or of all where there are fewer; the tile-parts of all of them.
pub fn check_length_table(codestream: &[u8], region: u64) -> Result<Option<Difference>, Refusal>
    ensures { result ≡ checked codestream.now region }
{
    let end = region.min(codestream.len() as u64) as usize;
    let header = &codestream[..end];
    header::parse::test_front(header)?;
    check_table(header, codestream)
}
