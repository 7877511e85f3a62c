// The check of a length table, for C.
ghost use Rattle.std.specs.Prelude.{◌≡◌};
ghost use Rattle.lengths.specs.Check.{checked};
ghost use Rattle.host.specs.Check.{check_number, check_value, check_offset, check_listed_tile, check_listed_length, check_standing_tile, check_standing_length};

// 0 where the table passes, and nothing is told; 258 where it differs, and `value` is the entry's number; or a refusal, and `value` is
// its place.
#[unsafe(no_mangle)]
pub extern "C" fn winterhasp_check_length_table(
    codestream: &[u8],
    region: u64,
    value: &mut u64,
    offset: &mut u64,
    listed_tile: &mut u64,
    listed_length: &mut u64,
    standing_tile: &mut u64,
    standing_length: &mut u64,
) -> u32
    ensures value { result ≡ check_number (checked codestream.now region) }
    ensures value_after { value.new ≡ check_value (checked codestream.now region) value.old }
    ensures offset_after { offset.new ≡ check_offset (checked codestream.now region) offset.old }
    ensures listed_tile_after { listed_tile.new ≡ check_listed_tile (checked codestream.now region) listed_tile.old }
    ensures listed_length_after { listed_length.new ≡ check_listed_length (checked codestream.now region) listed_length.old }
    ensures standing_tile_after { standing_tile.new ≡ check_standing_tile (checked codestream.now region) standing_tile.old }
    ensures standing_length_after { standing_length.new ≡ check_standing_length (checked codestream.now region) standing_length.old }
{
    host::check::winterhasp_check_length_table(
        codestream,
        region,
        value,
        offset,
        listed_tile,
        listed_length,
        standing_tile,
        standing_length,
    )
}
