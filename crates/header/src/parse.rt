// The reading of a main header: it decides everything first, then writes the decode header and the TLM records into lent
// memory. A refusal leaves both as they were.
ghost use Rattle.std.specs.Prelude.{◌≡◌, ◌+◌, ◌*◌, ◌/◌, ◌≤◌, ◌<◌, ◌^◌, length};
ghost use Rattle.types.specs.Refusals.{answer_number};
ghost use Rattle.numbers.specs.Bytes.{put};
ghost use Rattle.types.specs.Row.{row_bytes};
ghost use Rattle.header.specs.Tlm.{placed};
ghost use Rattle.header.specs.Walk.{at_first_sot, walk_from};
ghost use Rattle.header.specs.Numbering.{entries_by, ended_by};
ghost use Rattle.header.specs.Parse.{read_as, stands, front_of, judged_by, judged_as, parsed, header_first, header_length, header_entries, header_fillers, table_in, table_after, out_after};

use crate::edition::Edition;
use crate::numbering::Numbering;
use crate::reading::Reading;
use types::markers::{SIZ, SOC};
use types::table::Element;
use types::{CodestreamOffset, Reason, Refusal};

#[derive(Clone, Copy)]
pub struct MainHeaderInfo {
    pub first_sot_offset: CodestreamOffset,
    pub decode_header_length: u64,
    // None: the table is absent.
    pub tlm_entries: u64,
    // Delimiters whose high byte is not FF.
    pub fillers: u64,
}

// The walk from the SIZ marker on, counting.
fn walk(codestream: &[u8], numbering: Numbering) -> Result<MainHeaderInfo, Refusal>
    requires { (2 ≤ length codestream.now) × (length codestream.now < 2 ^ 32) }
    ensures { result ≡ read_as codestream.now (walk_from codestream.now 2) (ended_by numbering codestream.now 0 (walk_from codestream.now 2).visits (walk_from codestream.now 2).ended) }
{
    let mut at: usize = 2;
    let mut stripped: usize = 0;
    let mut entries: usize = 0;
    let mut fillers: usize = 0;
    let mut first: usize = 0; // the number of the next segment's first entry
    loop {
        let Some(passed) = crate::walk::walk_step(codestream, at)? else {
            return Ok(MainHeaderInfo {
                first_sot_offset: CodestreamOffset::at(at),
                decode_header_length: (at - stripped) as u64,
                tlm_entries: entries as u64,
                fillers: fillers as u64,
            });
        };
        fillers += passed.is_filler as usize;
        if let Some(count) = passed.tlm {
            first = crate::numbering::next_number(codestream, at, count, numbering, first);
            if 65_535 < first {
                return Err(Refusal {
                    reason: Reason::TlmTooManyEntries,
                    place: at as u64,
                });
            }
            stripped += passed.next - at;
            entries += count;
        }
        at = passed.next;
    }
}

pub fn marker_stands(codestream: &[u8], at: usize, marker: u16) -> bool
    requires { at ≤ 2 }
    ensures { result ≡ stands codestream.now at marker }
{
    at + 2 <= codestream.len() && numbers::read_u16(codestream, at) == marker
}

pub fn test_front(codestream: &[u8]) -> Result<(), Refusal>
    ensures { result ≡ front_of codestream.now }
{
    if 0xffff_ffff < codestream.len() {
        return Err(Refusal {
            reason: Reason::HeaderTooLong,
            place: 0,
        });
    }
    if !marker_stands(codestream, 0, SOC) {
        return Err(Refusal {
            reason: Reason::NoSoc,
            place: 0,
        });
    }
    if !marker_stands(codestream, 2, SIZ) {
        return Err(Refusal {
            reason: Reason::NoSiz,
            place: 2,
        });
    }
    Ok(())
}

fn judge(codestream: &[u8], numbering: Numbering) -> Result<MainHeaderInfo, Refusal>
    ensures { result ≡ judged_by numbering codestream.now }
{
    test_front(codestream)?;
    walk(codestream, numbering)
}

fn judge_as(codestream: &[u8], reading: Reading) -> Result<MainHeaderInfo, Refusal>
    ensures { result ≡ judged_as reading codestream.now }
{
    let info = judge(codestream, reading.numbering)?;
    match reading.edition {
        Edition::Older => Ok(info),
        Edition::Newer => crate::edition::test_caps(codestream, info),
    }
}

// What the reading into a table of so many rows and an output of so many bytes answers.
pub fn decide(
    codestream: &[u8],
    reading: Reading,
    rows: u64,
    room: u64,
) -> Result<MainHeaderInfo, Refusal>
    ensures { result ≡ parsed reading codestream.now rows room }
{
    let info = judge_as(codestream, reading)?;
    if rows < info.tlm_entries {
        return Err(Refusal {
            reason: Reason::TableTooSmall,
            place: info.tlm_entries,
        });
    }
    if room < info.decode_header_length {
        return Err(Refusal {
            reason: Reason::OutputTooSmall,
            place: info.decode_header_length,
        });
    }
    Ok(info)
}

// An answer for C: its number, and in `first_sot` the first SOT's offset or the refusal's place. The decode header's length and the
// numbers of TLM entries and of fillers stay on a refusal.
pub fn tell(
    answer: Result<MainHeaderInfo, Refusal>,
    first_sot: &mut u64,
    decode_length: &mut u64,
    entries: &mut u64,
    fillers: &mut u64,
) -> u32
    ensures value { result ≡ answer_number answer }
    ensures first_sot_after { first_sot.new ≡ header_first answer }
    ensures decode_length_after { decode_length.new ≡ header_length answer decode_length.old }
    ensures entries_after { entries.new ≡ header_entries answer entries.old }
    ensures fillers_after { fillers.new ≡ header_fillers answer fillers.old }
{
    match answer {
        Ok(info) => {
            let place = info.first_sot_offset;
            *first_sot = place.0;
            *decode_length = info.decode_header_length;
            *entries = info.tlm_entries;
            *fillers = info.fillers;
            0
        }
        Err(refusal) => {
            *first_sot = refusal.place;
            refusal.number()
        }
    }
}

// Writes the records of all TLM entries, the first of which starts at `first_sot`, where the numbering refuses none.
fn fill_table<E: Element>(
    codestream: &[u8],
    numbering: Numbering,
    first_sot: CodestreamOffset,
    table: &mut [E],
)
    requires in_bounds { 2 ≤ length codestream.now }
    requires codestream_value { ended_by numbering codestream.now 0 (walk_from codestream.now 2).visits (walk_from codestream.now 2).ended ≡ at_first_sot }
    requires codestream_in_bounds { E.WIDTH * length (entries_by numbering codestream.now 0 (walk_from codestream.now 2).visits) ≤ length table.old }
    requires codestream_bound { first_sot.0 + length (entries_by numbering codestream.now 0 (walk_from codestream.now 2).visits) * 2 ^ 32 < 2 ^ 64 }
    ensures { table.new ≡ put table.old 0 (E.layout.all (placed first_sot.0 (entries_by numbering codestream.now 0 (walk_from codestream.now 2).visits))) }
{
    let mut at: usize = 2;
    let mut row: usize = 0;
    let mut offset = first_sot;
    let mut first: usize = 0;
    while let Some(passed) = crate::walk::next_passed(codestream, at) {
        if let Some(count) = passed.tlm {
            offset = crate::tlm::fill_segment(codestream, at, first, count, offset, table, row);
            row += E::WIDTH * count;
            first = crate::numbering::next_number(codestream, at, count, numbering, first);
        }
        at = passed.next;
    }
}

// Whatever the table is made of.
pub fn parse_into<E: Element>(
    codestream: &[u8],
    reading: Reading,
    table: &mut [E],
    out: &mut [u8],
) -> Result<MainHeaderInfo, Refusal>
    ensures value { result ≡ parsed reading codestream.now (length table.old / E.WIDTH) (length out.old) }
    ensures table_after { table.new ≡ table_in E.layout reading.numbering result codestream.now table.old }
    ensures out_after { out.new ≡ out_after result codestream.now out.old }
{
    let info = decide(
        codestream,
        reading,
        (table.len() / E::WIDTH) as u64,
        out.len() as u64,
    )?;
    let first_sot = info.first_sot_offset;
    if info.decode_header_length == first_sot.0 {
        // no TLM segment: there are no records, and the header is its own decode header
        crate::strip::append(codestream, 0, first_sot.position(), out, 0);
        return Ok(info);
    }
    fill_table(codestream, reading.numbering, first_sot, table);
    crate::strip::strip(codestream, out);
    Ok(info)
}

pub fn parse_main_header(
    codestream: &[u8],
    reading: Reading,
    table: &mut [u8],
    out: &mut [u8],
) -> Result<MainHeaderInfo, Refusal>
    ensures value { result ≡ parsed reading codestream.now (length table.old / row_bytes) (length out.old) }
    ensures table_after { table.new ≡ table_after reading.numbering result codestream.now table.old }
    ensures out_after { out.new ≡ out_after result codestream.now out.old }
{
    parse_into(codestream, reading, table, out)
}
