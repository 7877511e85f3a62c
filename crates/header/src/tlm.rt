// One TLM segment (docs/RULES.md, "TLM"), given by the position of its marker: how many entries it holds, or why it is
// refused, and its entries as rows of a lent table.
ghost use Rattle.std.specs.Prelude.{◌≡◌, cond, ◌⊎◌, ◌+◌, ◌-◌, ◌*◌, ◌/◌, ◌≤◌, ◌<◌, ◌^◌, length, eqb};
ghost use Rattle.numbers.specs.Bytes.{be, put};
ghost use Rattle.types.specs.Row.{row_bytes, rows_of};
ghost use Rattle.header.specs.Tlm.{ztlm, index_size, length_size, entry_size, Within, tlm_at, Accepted, entry_count};
ghost use Rattle.header.specs.Tlm.{record_of, unindexed, entry_on, entries_on, placed, total};

use types::table::Element;
use types::{CodestreamOffset, PartNumbers, Reason, Refusal, TilePartEntry};

// ST, bits 5 and 4 of Stlm: the bytes of an entry's index.
pub(crate) fn index_size(stlm: u8) -> usize
    ensures { result ≡ index_size stlm }
{
    (stlm / 16 % 4) as usize
}

// SP, bit 6: the bytes of an entry's length.
fn length_size(stlm: u8) -> usize
    ensures { result ≡ length_size stlm }
{
    2 + (stlm / 64 % 2) as usize * 2
}

// The whole entries of a segment of this length and form.
fn whole_entries(ltlm: usize, stlm: u8) -> usize
    requires { 4 ≤ ltlm }
    ensures { result ≡ (ltlm - 4) / entry_size stlm }
{
    (ltlm - 4) / (index_size(stlm) + length_size(stlm))
}

// How many entries a segment that is not refused holds.
pub fn entry_count(codestream: &[u8], at: usize) -> usize
    requires { Accepted codestream.now at }
    ensures { result ≡ entry_count codestream.now at }
{
    whole_entries(
        numbers::read_u16(codestream, at + 2) as usize,
        codestream[at + 5],
    )
}

// A segment's number among the segments, which the walk does not look at.
pub fn ztlm_at(codestream: &[u8], at: usize) -> u8
    requires { Accepted codestream.now at }
    ensures { result ≡ ztlm codestream.now at }
{
    codestream[at + 4]
}

pub fn tlm_at(codestream: &[u8], at: usize) -> Result<usize, Refusal>
    requires { Within codestream.now at }
    ensures { result ≡ tlm_at codestream.now at }
{
    let place = at as u64;
    let ltlm = numbers::read_u16(codestream, at + 2) as usize;
    if ltlm < 4 {
        return Err(Refusal {
            reason: Reason::TlmTooShort,
            place,
        });
    }
    let stlm = codestream[at + 5]; // behind Ztlm, which is not read
    if index_size(stlm) == 3 {
        return Err(Refusal {
            reason: Reason::TlmFormUnknown,
            place,
        });
    }
    Ok(whole_entries(ltlm, stlm))
}

// An entry's index, of 0, 1 or 2 bytes; with none it is its number.
fn entry_index(codestream: &[u8], place: usize, size: usize, number: usize) -> u16
    requires size_bound { (size ≤ 2) × (place + size ≤ length codestream.now) }
    requires number_bound { size ≡ 0 → number < 2 ^ 16 }
    ensures { result ≡ cond (eqb size 0) number (be size codestream.now place) }
{
    match size {
        0 => number as u16,
        1 => codestream[place] as u16,
        _ => numbers::read_u16(codestream, place),
    }
}

// An entry's length, of 2 or 4 bytes.
fn entry_length(codestream: &[u8], place: usize, size: usize) -> u64
    requires { ((size ≡ 2) ⊎ (size ≡ 4)) × (place + size ≤ length codestream.now) }
    ensures { result ≡ be size codestream.now place }
{
    if size == 2 {
        numbers::read_u16(codestream, place) as u64
    } else {
        numbers::read_u32(codestream, place) as u64
    }
}

// The record of the i-th entry of a segment whose entries are numbered from `first` on. Its tile-part starts at `offset`.
pub fn tlm_entry(
    codestream: &[u8],
    at: usize,
    first: usize,
    i: usize,
    offset: CodestreamOffset,
) -> TilePartEntry
    requires accepted { Accepted codestream.now at }
    requires i_bound { i < entry_count codestream.now at }
    requires at_bound { first + unindexed codestream.now at ≤ 65_535 }
    ensures { result ≡ record_of offset.0 (entry_on codestream.now at first i) }
{
    let stlm = codestream[at + 5];
    let index_bytes = index_size(stlm);
    let length_bytes = length_size(stlm);
    let place = at + 6 + i * (index_bytes + length_bytes);
    let tile_index = entry_index(codestream, place, index_bytes, first + i);
    let length = entry_length(codestream, place + index_bytes, length_bytes);
    TilePartEntry {
        tile_index,
        numbers: PartNumbers::NotKnown,
        offset,
        length,
    }
}

// Writes the records of a segment's entries, numbered from `first` on, from `row` on. The first one's tile-part starts at
// `from`; gives where the last one's ends.
pub fn fill_segment<E: Element>(
    codestream: &[u8],
    at: usize,
    first: usize,
    count: usize,
    from: CodestreamOffset,
    table: &mut [E],
    row: usize,
) -> CodestreamOffset
    requires accepted { Accepted codestream.now at }
    requires count_value { count ≡ entry_count codestream.now at }
    requires at_bound { first + unindexed codestream.now at ≤ 65_535 }
    requires count_in_bounds { row + E.WIDTH * count ≤ length table.old }
    requires count_bound { from.0 + count * 2 ^ 32 < 2 ^ 64 }
    ensures result_value { result.0 ≡ from.0 + total (entries_on codestream.now at first 0 count) }
    ensures table_after { table.new ≡ put table.old row (E.layout.all (placed from.0 (entries_on codestream.now at first 0 count))) }
{
    let mut offset = from;
    let mut to = row;
    for i in 0..count {
        let entry = tlm_entry(codestream, at, first, i, offset);
        E::write(table, to, entry);
        offset = types::end_of(entry);
        to += E::WIDTH;
    }
    offset
}
