// One tile's buffer taken apart into its tile-parts (docs/RULES.md, "Split"): from Psot to Psot, never by a search for SOT.
ghost use Rattle.std.specs.Prelude.{◌≡◌, ◌≤◌, [], length, get_or};
ghost use Rattle.parts.specs.Split.{split_step_at, parts_of, standing, part_number, part_out};

use types::Reason;
use types::markers::{PSOT, SOT, SOT_SEGMENT};

pub fn split_step(tile: &[u8], at: usize) -> Option<usize>
    requires { at ≤ length tile.now }
    ensures { result ≡ split_step_at tile.now at }
{
    let rest = tile.len() - at;
    if rest < SOT_SEGMENT {
        return None;
    }
    if numbers::read_u16(tile, at) != SOT {
        return None;
    }
    let psot = numbers::read_u32(tile, at + PSOT) as usize;
    if psot == 0 || rest < psot {
        return Some(tile.len());
    }
    Some(at + psot)
}

pub fn split_count(tile: &[u8]) -> usize
    ensures { result ≡ length (parts_of tile.now) }
{
    let mut at: usize = 0;
    let mut count: usize = 0;
    loop {
        let Some(end) = split_step(tile, at) else {
            return count;
        };
        count += 1;
        at = end;
    }
}

// The k-th part, of the caller's own bytes; past the last the empty part.
pub fn split_part(tile: &[u8], k: usize) -> &[u8]
    ensures { result.now ≡ get_or (parts_of tile.now) k [] }
{
    let mut at: usize = 0;
    let mut skip = k;
    loop {
        let Some(end) = split_step(tile, at) else {
            return &tile[..0];
        };
        if skip == 0 {
            return &tile[at..end];
        }
        skip -= 1;
        at = end;
    }
}

// The part that stands at a position, of the caller's own bytes; where none stands the empty part. The next stands where it ends.
pub fn split_at(tile: &[u8], at: usize) -> &[u8]
    ensures { result.now ≡ standing tile.now at }
{
    if tile.len() < at {
        return &tile[..0];
    }
    let Some(end) = split_step(tile, at) else {
        return &tile[..0];
    };
    &tile[at..end]
}

// A part of the caller's bytes for C: 0 and the part in `out`, or 17 where it is longer than `out`. `value` is its length.
pub fn tell(part: &[u8], out: &mut [u8], value: &mut u64) -> u32
    ensures value { result ≡ part_number part.now (length out.old) }
    ensures value_after { value.new ≡ length part.now }
    ensures out_after { out.new ≡ part_out part.now out.old }
{
    *value = part.len() as u64;
    if out.len() < part.len() {
        return Reason::OutputTooSmall as u32;
    }
    numbers::copy_at(part, out, 0);
    0
}
