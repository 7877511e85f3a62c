// Tables of a program's own: 2,048 records (docs/RULES.md, "Tables of records"), filled here and handed back with the answer.
ghost use Rattle.std.specs.Prelude.{◌≡◌, min, ◌++◌, length, take, drop};
ghost use Rattle.header.specs.Parse.{parsed, out_after};
ghost use Rattle.index.specs.Extend.{old_of, extended, index_after, scratch_after};
ghost use Rattle.parts.specs.Order.{in_order};
ghost use Rattle.parts.specs.Scan.{scanned};
ghost use Rattle.records.specs.MainHeader.{records_after};
ghost use Rattle.records.specs.Scan.{scanned_records};
ghost use Rattle.records.specs.Tables.{blank};

use header::parse::MainHeaderInfo;
use header::reading::Reading;
use types::{CodestreamOffset, PartNumbers, Refusal, TilePartEntry};

#[derive(Drop)]
pub struct ScanTable {
    pub answer: Result<u64, Refusal>,
    pub table: [TilePartEntry; 2048],
}

#[derive(Drop)]
pub struct HeaderTable {
    pub answer: Result<MainHeaderInfo, Refusal>,
    pub table: [TilePartEntry; 2048],
}

pub fn new_table() -> [TilePartEntry; 2048]
    ensures { result ≡ blank }
{
    let none = TilePartEntry {
        tile_index: 0,
        numbers: PartNumbers::NotKnown,
        offset: CodestreamOffset(0),
        length: 0,
    };
    [none; 2048]
}

fn scan_with(answer: Result<u64, Refusal>, table: [TilePartEntry; 2048]) -> ScanTable
    ensures { (result.answer ≡ answer) × (result.table ≡ table) }
{
    ScanTable { answer, table }
}

fn header_with(answer: Result<MainHeaderInfo, Refusal>, table: [TilePartEntry; 2048]) -> HeaderTable
    ensures { (result.answer ≡ answer) × (result.table ≡ table) }
{
    HeaderTable { answer, table }
}

// As many of the table's records as are asked for are lent.
fn at_most(rows: usize) -> usize
    ensures { result ≡ min rows 2048 }
{
    rows.min(2048)
}

// The scan into the first `rows` records of a table.
pub fn scan_into(
    codestream: &[u8],
    first_sot_offset: CodestreamOffset,
    lent: [TilePartEntry; 2048],
    rows: usize,
) -> ScanTable
    ensures answer_value { result.answer ≡ scanned codestream.now first_sot_offset.0 (min rows 2048) }
    ensures table_value { result.table ≡ scanned_records codestream.now first_sot_offset.0 (take (min rows 2048) lent) ++ drop (min rows 2048) lent }
{
    let mut table = lent;
    let room = at_most(rows);
    let answer = crate::scan::scan_sot_markers(codestream, first_sot_offset, &mut table[..room]);
    scan_with(answer, table)
}

// The reading of a main header, the same way.
pub fn header_into(
    codestream: &[u8],
    reading: Reading,
    lent: [TilePartEntry; 2048],
    rows: usize,
    out: &mut [u8],
) -> HeaderTable
    ensures answer_value { result.answer ≡ parsed reading codestream.now (min rows 2048) (length out.old) }
    ensures table_value { result.table ≡ records_after reading.numbering result.answer codestream.now (take (min rows 2048) lent) ++ drop (min rows 2048) lent }
    ensures out_after { out.new ≡ out_after result.answer codestream.now out.old }
{
    let mut table = lent;
    let room = at_most(rows);
    let answer = crate::main_header::parse_main_header(
        codestream,
        reading,
        &mut table[..room],
        out,
    );
    header_with(answer, table)
}

// The order of a tile's tile-parts in the first `rows` records of a table.
pub fn order_within(table: [TilePartEntry; 2048], rows: usize, tile: u16) -> bool
    ensures { result ≡ in_order tile (take (min rows 2048) table) }
{
    let room = at_most(rows);
    crate::order::tile_in_order(&table[..room], tile)
}

// The index by tile of the first `rows` records of a table.
pub fn index_within(
    table: [TilePartEntry; 2048],
    rows: usize,
    have: usize,
    index: &mut [u64],
    scratch: &mut [u64],
) -> Result<u64, Refusal>
    ensures value { result ≡ extended (min rows 2048) have (length index.old) (length scratch.old) }
    ensures index_after { index.new ≡ index_after result (take (min rows 2048) table) (old_of have (min rows 2048)) index.old }
    ensures scratch_after { scratch.new ≡ scratch_after result (take (min rows 2048) table) (old_of have (min rows 2048)) scratch.old }
{
    let room = at_most(rows);
    crate::by_tile::extend_index(&table[..room], have, index, scratch)
}

pub fn scan_table(codestream: &[u8], first_sot_offset: CodestreamOffset) -> ScanTable
    ensures answer_value { result.answer ≡ scanned codestream.now first_sot_offset.0 2048 }
    ensures table_value { result.table ≡ scanned_records codestream.now first_sot_offset.0 blank }
{
    scan_into(codestream, first_sot_offset, new_table(), 2048)
}

pub fn header_table(codestream: &[u8], reading: Reading, out: &mut [u8]) -> HeaderTable
    ensures answer_value { result.answer ≡ parsed reading codestream.now 2048 (length out.old) }
    ensures table_value { result.table ≡ records_after reading.numbering result.answer codestream.now blank }
    ensures out_after { out.new ≡ out_after result.answer codestream.now out.old }
{
    header_into(codestream, reading, new_table(), 2048, out)
}
