// The check of a length table, for C.
ghost use Rattle.std.specs.Prelude.{◌≡◌};
ghost use Rattle.lengths.specs.Check.{checked};
ghost use Rattle.host.specs.Check.{said_tile, said_length, check_number, check_value, check_offset, check_listed_tile, check_listed_length, check_standing_tile, check_standing_length};

use lengths::check::{Difference, Said};
use types::Refusal;

// 65,536, which is no tile's index, and 0 where nothing is said.
fn tell_said(said: Option<Said>, tile: &mut u64, length: &mut u64)
    ensures tile_after { tile.new ≡ said_tile said }
    ensures length_after { length.new ≡ said_length said }
{
    match said {
        Some(said) => {
            *tile = said.tile as u64;
            *length = said.length;
        }
        None => {
            *tile = 65_536;
            *length = 0;
        }
    }
}

fn tell_check(
    answer: Result<Option<Difference>, Refusal>,
    value: &mut u64,
    offset: &mut u64,
    listed_tile: &mut u64,
    listed_length: &mut u64,
    standing_tile: &mut u64,
    standing_length: &mut u64,
) -> u32
    ensures value { result ≡ check_number answer }
    ensures value_after { value.new ≡ check_value answer value.old }
    ensures offset_after { offset.new ≡ check_offset answer offset.old }
    ensures listed_tile_after { listed_tile.new ≡ check_listed_tile answer listed_tile.old }
    ensures listed_length_after { listed_length.new ≡ check_listed_length answer listed_length.old }
    ensures standing_tile_after { standing_tile.new ≡ check_standing_tile answer standing_tile.old }
    ensures standing_length_after { standing_length.new ≡ check_standing_length answer standing_length.old }
{
    match answer {
        Ok(None) => 0,
        Ok(Some(difference)) => {
            *value = difference.number;
            *offset = difference.offset.0;
            tell_said(difference.listed, listed_tile, listed_length);
            tell_said(difference.standing, standing_tile, standing_length);
            258
        }
        Err(refusal) => {
            *value = refusal.place;
            refusal.number()
        }
    }
}

// 0 where the table passes, and nothing is told; 258 where it differs, and `value` is the entry's number; or a refusal, and `value` is
// its place.
pub fn winterhasp_check_length_table(
    codestream: &[u8],
    region: u64,
    value: &mut u64,
    offset: &mut u64,
    listed_tile: &mut u64,
    listed_length: &mut u64,
    standing_tile: &mut u64,
    standing_length: &mut u64,
) -> u32
    ensures value { result ≡ check_number (checked codestream.now region) }
    ensures value_after { value.new ≡ check_value (checked codestream.now region) value.old }
    ensures offset_after { offset.new ≡ check_offset (checked codestream.now region) offset.old }
    ensures listed_tile_after { listed_tile.new ≡ check_listed_tile (checked codestream.now region) listed_tile.old }
    ensures listed_length_after { listed_length.new ≡ check_listed_length (checked codestream.now region) listed_length.old }
    ensures standing_tile_after { standing_tile.new ≡ check_standing_tile (checked codestream.now region) standing_tile.old }
    ensures standing_length_after { standing_length.new ≡ check_standing_length (checked codestream.now region) standing_length.old }
{
    let answer = lengths::check::check_length_table(codestream, region);
    tell_check(
        answer,
        value,
        offset,
        listed_tile,
        listed_length,
        standing_tile,
        standing_length,
    )
}
