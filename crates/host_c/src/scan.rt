// The scan of the tile-parts.
ghost use Rattle.std.specs.Prelude.{◌≡◌, ◌/◌, length};
ghost use Rattle.types.specs.Refusals.{answer_number, answer_value};
ghost use Rattle.types.specs.Row.{row_bytes};
ghost use Rattle.parts.specs.Scan.{scanned, scanned_table};

// `value`: entries, or a refusal's place. The table has a row for each 21 bytes.
#[unsafe(no_mangle)]
pub extern "C" fn winterhasp_scan_sot_markers(
    codestream: &[u8],
    first_sot_offset: u64,
    table: &mut [u8],
    value: &mut u64,
) -> u32
    ensures value { result ≡ answer_number (scanned codestream.now first_sot_offset (length table.old / row_bytes)) }
    ensures value_after { value.new ≡ answer_value (scanned codestream.now first_sot_offset (length table.old / row_bytes)) }
    ensures table_after { table.new ≡ scanned_table codestream.now first_sot_offset table.old }
{
    host::scan::winterhasp_scan_sot_markers(codestream, first_sot_offset, table, value)
}
