// One tile's joined tile-parts taken apart again. The parts are copied into `out`.
ghost use Rattle.std.specs.Prelude.{◌≡◌, [], length, get_or};
ghost use Rattle.parts.specs.Split.{parts_of, standing, part_number, part_out};

// How many parts there are.
#[unsafe(no_mangle)]
pub extern "C" fn winterhasp_split_count(tile: &[u8]) -> u64
    ensures { result ≡ length (parts_of tile.now) }
{
    host::split::winterhasp_split_count(tile)
}

// The k-th part. `value`: its length, 0 where there is none, or with 17 the size needed.
#[unsafe(no_mangle)]
pub extern "C" fn winterhasp_split_part(tile: &[u8], k: u64, out: &mut [u8], value: &mut u64) -> u32
    ensures value { result ≡ part_number (get_or (parts_of tile.now) k []) (length out.old) }
    ensures value_after { value.new ≡ length (get_or (parts_of tile.now) k []) }
    ensures out_after { out.new ≡ part_out (get_or (parts_of tile.now) k []) out.old }
{
    host::split::winterhasp_split_part(tile, k, out, value)
}

// The part that stands at a position. `value`: its length, 0 where none stands, or with 17 the size needed.
#[unsafe(no_mangle)]
pub extern "C" fn winterhasp_split_at(tile: &[u8], at: u64, out: &mut [u8], value: &mut u64) -> u32
    ensures value { result ≡ part_number (standing tile.now at) (length out.old) }
    ensures value_after { value.new ≡ length (standing tile.now at) }
    ensures out_after { out.new ≡ part_out (standing tile.now at) out.old }
{
    host::split::winterhasp_split_at(tile, at, out, value)
}
