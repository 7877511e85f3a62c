// The answers with a table of tile-parts, of rows or of records: one function for each kind of case.
ghost use Rattle.std.specs.Prelude.{◌≡◌, length};

use crate::print;
use header::reading::Reading;
use records::tables::{HeaderTable, ScanTable};
use std::io;
use std::io::Write;
use types::{CodestreamOffset, ROW};

// The payload is the codestream.
pub(crate) fn header<W: Write>(out: &mut W, codestream: &[u8], reading: Reading) -> io::Result<()> {
    let mut table = new_rows();
    let mut bytes = crate::large_buffer();
    let answer = header::parse::parse_main_header(codestream, reading, &mut table, &mut bytes);
    print::header(out, answer, &table, &bytes)
}

// The same with a table of records.
pub(crate) fn header_records<W: Write>(
    out: &mut W,
    codestream: &[u8],
    reading: Reading,
) -> io::Result<()> {
    let mut bytes = crate::large_buffer();
    let read = records::tables::header_table(codestream, reading, &mut bytes);
    header_told(out, read, &bytes)
}

// A function of its own, since room for a table is cleared less often so.
fn header_told<W: Write>(out: &mut W, read: HeaderTable, bytes: &[u8]) -> io::Result<()> {
    let HeaderTable { answer, table } = read;
    print::header(out, answer, &table, bytes)
}

// The payload is the start, 8 bytes, and the codestream.
pub(crate) fn scan<W: Write>(out: &mut W, payload: &[u8]) -> io::Result<()> {
    if payload.len() < 8 {
        return print::unknown(out);
    }
    let start = CodestreamOffset(numbers::read_u64(payload, 0));
    let mut table = new_rows();
    let answer = parts::scan::scan_sot_markers(&payload[8..], start, &mut table);
    let entries = print::scan(out, answer)?;
    print::entries(out, &table, entries, false)
}

// The same with a table of records.
pub(crate) fn scan_records<W: Write>(out: &mut W, payload: &[u8]) -> io::Result<()> {
    if payload.len() < 8 {
        return print::unknown(out);
    }
    let start = CodestreamOffset(numbers::read_u64(payload, 0));
    let ScanTable { answer, table } = records::tables::scan_table(&payload[8..], start);
    let entries = print::scan(out, answer)?;
    print::entries(out, &table, entries, false)
}

// The payload is the tile's index, 2 bytes, and the codestream, whose tile-parts start at 0.
pub(crate) fn order<W: Write>(out: &mut W, payload: &[u8]) -> io::Result<()> {
    if payload.len() < 2 {
        return print::unknown(out);
    }
    let mut table = new_rows();
    let answer = parts::scan::scan_sot_markers(&payload[2..], CodestreamOffset(0), &mut table);
    let entries = print::scan(out, answer)?;
    print::entries(out, &table, entries, true)?;
    print::order(
        out,
        parts::order::tile_in_order(first_rows(&table, entries), numbers::read_u16(payload, 0)),
    )
}

// The first rows of a table, which has as many.
pub(crate) fn first_rows(table: &[u8], count: u64) -> &[u8] {
    let rows = (count as usize).min(table.len() / ROW);
    &table[..rows * ROW]
}

// The same with a table of records.
pub(crate) fn order_records<W: Write>(out: &mut W, payload: &[u8]) -> io::Result<()> {
    if payload.len() < 2 {
        return print::unknown(out);
    }
    let ScanTable { answer, table } = records::tables::scan_table(
        &payload[2..],
        CodestreamOffset(0),
    );
    let entries = print::scan(out, answer)?;
    print::entries(out, &table, entries, true)?;
    print::order(
        out,
        records::tables::order_within(table, entries as usize, numbers::read_u16(payload, 0)),
    )
}

// 2,048 rows.
pub(crate) fn new_rows() -> [u8; 43008]
    ensures { 43008 ≡ length result }
{
    [0; 2048 * ROW]
}
