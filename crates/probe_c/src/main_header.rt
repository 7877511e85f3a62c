// The reading of the main header with a table of records.
ghost use Rattle.std.specs.Prelude.{◌≡◌, length};
ghost use Rattle.types.specs.Refusals.{answer_number};
ghost use Rattle.numbers.specs.Bytes.{put};
ghost use Rattle.types.specs.Row.{rows_of};
ghost use Rattle.header.specs.Reading.{reading_of};
ghost use Rattle.header.specs.Parse.{parsed, out_after, header_first, header_length, header_entries, header_fillers};
ghost use Rattle.records.specs.MainHeader.{records_after};
ghost use Rattle.probe.specs.Own.{held, own};

use header::reading::ReadingNumbers;

// With as many records as `table` has rows, 2,048 at most. `first_sot`: the first SOT's offset, or a refusal's place;
// `decode_length`: the decode header's length; `entries`: the records; `fillers`: the delimiters whose high byte is not FF.
#[unsafe(no_mangle)]
pub extern "C" fn winterhasp_header_records(
    codestream: &[u8],
    reading: ReadingNumbers,
    table: &mut [u8],
    out: &mut [u8],
    first_sot: &mut u64,
    decode_length: &mut u64,
    entries: &mut u64,
    fillers: &mut u64,
) -> u32
    ensures value { result ≡ answer_number (parsed (reading_of reading) codestream.now (held table.old) (length out.old)) }
    ensures first_sot_after { first_sot.new ≡ header_first (parsed (reading_of reading) codestream.now (held table.old) (length out.old)) }
    ensures decode_length_after { decode_length.new ≡ header_length (parsed (reading_of reading) codestream.now (held table.old) (length out.old)) decode_length.old }
    ensures entries_after { entries.new ≡ header_entries (parsed (reading_of reading) codestream.now (held table.old) (length out.old)) entries.old }
    ensures fillers_after { fillers.new ≡ header_fillers (parsed (reading_of reading) codestream.now (held table.old) (length out.old)) fillers.old }
    ensures table_after { table.new ≡ put table.old 0 (rows_of (records_after (reading_of reading).numbering (parsed (reading_of reading) codestream.now (held table.old) (length out.old)) codestream.now (own table.old))) }
    ensures out_after { out.new ≡ out_after (parsed (reading_of reading) codestream.now (held table.old) (length out.old)) codestream.now out.old }
{
    probe::main_header::winterhasp_header_records(
        codestream,
        reading,
        table,
        out,
        first_sot,
        decode_length,
        entries,
        fillers,
    )
}
