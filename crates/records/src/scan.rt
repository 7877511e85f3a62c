// The tile-parts of a codestream, one record each, in a slice of records lent by the caller (docs/RULES.md, "SOT scan").
ghost use Rattle.std.specs.Prelude.{◌≡◌, length};
ghost use Rattle.parts.specs.Scan.{scanned};
ghost use Rattle.records.specs.Scan.{scanned_records};

use types::{CodestreamOffset, Refusal, TilePartEntry};

// A start at or past the end gives no record.
pub fn scan_sot_markers(
    codestream: &[u8],
    first_sot_offset: CodestreamOffset,
    table: &mut [TilePartEntry],
) -> Result<u64, Refusal>
    ensures value { result ≡ scanned codestream.now first_sot_offset.0 (length table.old) }
    ensures table_after { table.new ≡ scanned_records codestream.now first_sot_offset.0 table.old }
{
    parts::scan::scan_judged(codestream, first_sot_offset, table)
}
