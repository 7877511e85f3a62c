// The reading of the main header.
ghost use Rattle.std.specs.Prelude.{◌≡◌, ◌/◌, length};
ghost use Rattle.types.specs.Refusals.{answer_number};
ghost use Rattle.types.specs.Row.{row_bytes};
ghost use Rattle.header.specs.Reading.{by_default, reading_of};
ghost use Rattle.header.specs.Parse.{parsed, table_after, out_after, header_first, header_length, header_entries, header_fillers};

use header::reading::ReadingNumbers;

// TLM entries without an index are numbered on over the segments, and CAP is passed over as any segment. `table` gets a row of 21 bytes for each TLM entry, `out` the decode header. `first_sot`: the first SOT's offset, or a refusal's
// place; `decode_length`: the decode header's length; `entries`: the rows; `fillers`: the delimiters whose high byte is not FF.
#[unsafe(no_mangle)]
pub extern "C" fn winterhasp_parse_main_header(
    codestream: &[u8],
    table: &mut [u8],
    out: &mut [u8],
    first_sot: &mut u64,
    decode_length: &mut u64,
    entries: &mut u64,
    fillers: &mut u64,
) -> u32
    ensures value { result ≡ answer_number (parsed by_default codestream.now (length table.old / row_bytes) (length out.old)) }
    ensures first_sot_after { first_sot.new ≡ header_first (parsed by_default codestream.now (length table.old / row_bytes) (length out.old)) }
    ensures decode_length_after { decode_length.new ≡ header_length (parsed by_default codestream.now (length table.old / row_bytes) (length out.old)) decode_length.old }
    ensures entries_after { entries.new ≡ header_entries (parsed by_default codestream.now (length table.old / row_bytes) (length out.old)) entries.old }
    ensures fillers_after { fillers.new ≡ header_fillers (parsed by_default codestream.now (length table.old / row_bytes) (length out.old)) fillers.old }
    ensures table_after { table.new ≡ table_after by_default.numbering (parsed by_default codestream.now (length table.old / row_bytes) (length out.old)) codestream.now table.old }
    ensures out_after { out.new ≡ out_after (parsed by_default codestream.now (length table.old / row_bytes) (length out.old)) codestream.now out.old }
{
    host::parse::winterhasp_parse_main_header(
        codestream,
        table,
        out,
        first_sot,
        decode_length,
        entries,
        fillers,
    )
}

// The same, read as is said.
#[unsafe(no_mangle)]
pub extern "C" fn winterhasp_parse_main_header_by_reading(
    codestream: &[u8],
    reading: ReadingNumbers,
    table: &mut [u8],
    out: &mut [u8],
    first_sot: &mut u64,
    decode_length: &mut u64,
    entries: &mut u64,
    fillers: &mut u64,
) -> u32
    ensures value { result ≡ answer_number (parsed (reading_of reading) codestream.now (length table.old / row_bytes) (length out.old)) }
    ensures first_sot_after { first_sot.new ≡ header_first (parsed (reading_of reading) codestream.now (length table.old / row_bytes) (length out.old)) }
    ensures decode_length_after { decode_length.new ≡ header_length (parsed (reading_of reading) codestream.now (length table.old / row_bytes) (length out.old)) decode_length.old }
    ensures entries_after { entries.new ≡ header_entries (parsed (reading_of reading) codestream.now (length table.old / row_bytes) (length out.old)) entries.old }
    ensures fillers_after { fillers.new ≡ header_fillers (parsed (reading_of reading) codestream.now (length table.old / row_bytes) (length out.old)) fillers.old }
    ensures table_after { table.new ≡ table_after (reading_of reading).numbering (parsed (reading_of reading) codestream.now (length table.old / row_bytes) (length out.old)) codestream.now table.old }
    ensures out_after { out.new ≡ out_after (parsed (reading_of reading) codestream.now (length table.old / row_bytes) (length out.old)) codestream.now out.old }
{
    host::parse::winterhasp_parse_main_header_by_reading(
        codestream,
        reading,
        table,
        out,
        first_sot,
        decode_length,
        entries,
        fillers,
    )
}
