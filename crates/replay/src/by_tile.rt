// The answers with an index by tile, of a table of rows or of records: one function for each kind of case.
ghost use Rattle.std.specs.Prelude.{◌≡◌, length};

use crate::{print, tables};
use records::tables::ScanTable;
use std::io;
use std::io::Write;
use types::{CodestreamOffset, Refusal, TilePartEntry};

// The payload is the tile's index and how many entries are old, 2 bytes each, and the codestream, whose tile-parts start at 0.
pub(crate) fn rows<W: Write>(out: &mut W, payload: &[u8]) -> io::Result<()> {
    if payload.len() < 4 {
        return print::unknown(out);
    }
    let tile = numbers::read_u16(payload, 0);
    let old = numbers::read_u16(payload, 2);
    let mut table = tables::new_rows();
    let answer = parts::scan::scan_sot_markers(&payload[4..], CodestreamOffset(0), &mut table);
    let entries = print::scan(out, answer)?;
    rows_by(out, tables::first_rows(&table, entries), old, tile)
}

// The index of the rows that are old, extended to all.
fn rows_by<W: Write>(out: &mut W, table: &[u8], old: u16, tile: u16) -> io::Result<()> {
    let mut index = new_index();
    let mut scratch = new_index();
    let early = tables::first_rows(table, u64::from(old));
    let _ = index::extend::index_tiles(early, &mut index, &mut scratch);
    let answer = index::extend::extend_index(table, old as usize, &mut index, &mut scratch);
    let keys = told(out, answer, &index, tile)?;
    let mut bytes = tables::new_rows();
    let answer = index::entries::tile_entries(table, keys, tile, &mut bytes);
    let entries = print::indexed(out, ", entries", answer)?;
    print::entries(out, &bytes, entries, true)
}

// The same with a table of records.
pub(crate) fn records<W: Write>(out: &mut W, payload: &[u8]) -> io::Result<()> {
    if payload.len() < 4 {
        return print::unknown(out);
    }
    let tile = numbers::read_u16(payload, 0);
    let old = numbers::read_u16(payload, 2);
    let ScanTable { answer, table } = records::tables::scan_table(
        &payload[4..],
        CodestreamOffset(0),
    );
    let entries = print::scan(out, answer)?;
    records_by(out, table, entries, old, tile)
}

// In the first records of a table, which has as many.
fn records_by<W: Write>(
    out: &mut W,
    table: [TilePartEntry; 2048],
    entries: u64,
    old: u16,
    tile: u16,
) -> io::Result<()> {
    let mut index = new_index();
    let mut scratch = new_index();
    let early = u64::from(old).min(entries) as usize;
    let _ = records::tables::index_within(table, early, 0, &mut index, &mut scratch);
    let answer = records::tables::index_within(
        table,
        entries as usize,
        old as usize,
        &mut index,
        &mut scratch,
    );
    let keys = told(out, answer, &index, tile)?;
    write!(out, ", entries")?;
    print::records_of(out, &table, index::run::tile_run(keys, tile))
}

// What is said of an index, and what it says of a tile; gives its keys.
fn told<'a, W: Write>(
    out: &mut W,
    answer: Result<u64, Refusal>,
    index: &'a [u64],
    tile: u16,
) -> io::Result<&'a [u64]> {
    let count = print::indexed(out, ", index", answer)?;
    let keys = &index[..index.len().min(count as usize)];
    print::keys(out, keys)?;
    print::run(out, keys, tile)?;
    Ok(keys)
}

// Room for as many keys as a table has entries.
fn new_index() -> [u64; 2048]
    ensures { 2048 ≡ length result }
{
    [0; 2048]
}
