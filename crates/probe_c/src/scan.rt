// The scan into a table of records.
ghost use Rattle.std.specs.Prelude.{◌≡◌};
ghost use Rattle.types.specs.Refusals.{answer_number, answer_value};
ghost use Rattle.numbers.specs.Bytes.{put};
ghost use Rattle.types.specs.Row.{rows_of};
ghost use Rattle.parts.specs.Scan.{scanned};
ghost use Rattle.records.specs.Scan.{scanned_records};
ghost use Rattle.probe.specs.Own.{held, own};

// Into as many records as `table` has rows, 2,048 at most. `value`: entries, or a refusal's place.
#[unsafe(no_mangle)]
pub extern "C" fn winterhasp_scan_records(
    codestream: &[u8],
    first_sot_offset: u64,
    table: &mut [u8],
    value: &mut u64,
) -> u32
    ensures value { result ≡ answer_number (scanned codestream.now first_sot_offset (held table.old)) }
    ensures value_after { value.new ≡ answer_value (scanned codestream.now first_sot_offset (held table.old)) }
    ensures table_after { table.new ≡ put table.old 0 (rows_of (scanned_records codestream.now first_sot_offset (own table.old))) }
{
    probe::scan::winterhasp_scan_records(codestream, first_sot_offset, table, value)
}
