// An offset in the codestream as a place in the file.
ghost use Rattle.std.specs.Prelude.{◌≡◌};
ghost use Rattle.types.specs.Offsets.{in_file};
ghost use Rattle.host.specs.Offsets.{place_number, place_value};

use types::{CodestreamOffset, FileOffset};

// Where an offset of the codestream that starts at `start` lies in the file. 1: `value` is the place; 0: it passes 2^64-1, and
// `value` stays.
pub fn winterhasp_in_file(offset: u64, start: u64, value: &mut u64) -> u32
    ensures value { result ≡ place_number (in_file (record { 0 = offset }) (record { 0 = start })) }
    ensures value_after { value.new ≡ place_value (in_file (record { 0 = offset }) (record { 0 = start })) value.old }
{
    match CodestreamOffset(offset).in_file(FileOffset(start)) {
        Some(place) => {
            *value = place.0;
            1
        }
        None => 0,
    }
}
