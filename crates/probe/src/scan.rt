// The scan into a table of records.
ghost use Rattle.std.specs.Prelude.{◌≡◌};
ghost use Rattle.types.specs.Refusals.{answer_number, answer_value};
ghost use Rattle.numbers.specs.Bytes.{put};
ghost use Rattle.types.specs.Row.{rows_of};
ghost use Rattle.parts.specs.Scan.{scanned};
ghost use Rattle.records.specs.Scan.{scanned_records};
ghost use Rattle.probe.specs.Own.{held, own};

use types::CodestreamOffset;

// Into as many records as `table` has rows, 2,048 at most. `value`: entries, or a refusal's place.
pub fn winterhasp_scan_records(
    codestream: &[u8],
    first_sot_offset: u64,
    table: &mut [u8],
    value: &mut u64,
) -> u32
    ensures value { result ≡ answer_number (scanned codestream.now first_sot_offset (held table.old)) }
    ensures value_after { value.new ≡ answer_value (scanned codestream.now first_sot_offset (held table.old)) }
    ensures table_after { table.new ≡ put table.old 0 (rows_of (scanned_records codestream.now first_sot_offset (own table.old))) }
{
    let count = crate::own::count(table);
    let records = crate::own::load(table, count);
    let scan = records::tables::scan_into(
        codestream,
        CodestreamOffset(first_sot_offset),
        records,
        count,
    );
    let answer = scan.answer;
    let left = scan.table;
    crate::own::store(left, count, table);
    types::tell(answer, value)
}
