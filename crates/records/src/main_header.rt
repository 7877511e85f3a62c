// The reading of a main header whose TLM records go to a slice of records lent by the caller. It decides everything
// first, then writes. A refusal leaves table and output as they were.
ghost use Rattle.std.specs.Prelude.{◌≡◌, length};
ghost use Rattle.header.specs.Parse.{parsed, out_after};
ghost use Rattle.records.specs.MainHeader.{records_after};

use header::parse::MainHeaderInfo;
use header::reading::Reading;
use types::{Refusal, TilePartEntry};

pub fn parse_main_header(
    codestream: &[u8],
    reading: Reading,
    table: &mut [TilePartEntry],
    out: &mut [u8],
) -> Result<MainHeaderInfo, Refusal>
    ensures value { result ≡ parsed reading codestream.now (length table.old) (length out.old) }
    ensures table_after { table.new ≡ records_after reading.numbering result codestream.now table.old }
    ensures out_after { out.new ≡ out_after result codestream.now out.old }
{
    header::parse::parse_into(codestream, reading, table, out)
}
