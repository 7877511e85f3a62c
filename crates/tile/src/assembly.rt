// A codestream of one tile: header, tile-parts, EOC (docs/RULES.md, "Assembly"). Ranges come as rows of 21 bytes, of which offset and length
// alone are looked at; a partial row at the end is none.
ghost use Rattle.std.specs.Prelude.{◌≡◌, ◌+◌, ◌-◌, ◌^◌, ◌≤◌, min, length, option_copied};
ghost use Rattle.numbers.specs.Bytes.{put};
ghost use Rattle.types.specs.Row.{row_bytes, entry_at, records_in};
ghost use Rattle.tile.specs.Assembly.{part_of, is_sot, patched, parts_in, joined, size_for, assembly_answer, assembly_out};

use crate::rules::Rule;
use types::markers::{EOC, ISOT, SOT};
use types::{Area, ROW, Refusal};

// The part of a row's range, an empty one too; a range that ends past the codestream has none.
fn part_of<'a>(row: &[u8], codestream: &'a [u8]) -> Option<&'a [u8]>
    requires { row_bytes ≤ length row.now }
    ensures { option_copied result ≡ part_of codestream.now (entry_at row.now 0) }
{
    let entry = types::read_row(row, 0);
    let from = entry.offset.position();
    let to = from.checked_add(entry.length as usize)?;
    codestream.get(from..to)
}

fn is_sot(part: &[u8]) -> bool
    ensures { result ≡ is_sot part.now }
{
    6 <= part.len() && numbers::read_u16(part, 0) == SOT
}

// The header's change for the tile of the first part.
fn size_for(
    header: &[u8],
    tile_parts: &[u8],
    codestream: &[u8],
    rule: Rule,
) -> Result<Option<Area>, Refusal>
    ensures { result ≡ size_for rule header.now (parts_in codestream.now (records_in tile_parts.now)) }
{
    for row in tile_parts.chunks_exact(ROW) {
        let Some(part) = part_of(row, codestream) else {
            continue;
        };
        if is_sot(part) {
            return crate::rewrite::tile_size(header, numbers::read_u16(part, ISOT), rule);
        }
        return Ok(None);
    }
    Ok(None)
}

// Header, parts and EOC, whatever the rule.
fn size_needed(header: &[u8], tile_parts: &[u8], codestream: &[u8]) -> u64
    ensures { result ≡ min (length header.now + 2 + length (joined (parts_in codestream.now (records_in tile_parts.now)))) (2 ^ 64 - 1) }
{
    let mut size = header.len() as u64 + 2;
    for row in tile_parts.chunks_exact(ROW) {
        if let Some(part) = part_of(row, codestream) {
            size = size.saturating_add(part.len() as u64);
        }
    }
    size
}

// A part's bytes, with Isot 0 where it has one.
fn write_part(part: &[u8], out: &mut [u8], at: usize)
    requires { at + length part.now ≤ length out.old }
    ensures { out.new ≡ put out.old at (patched part.now) }
{
    numbers::copy_at(part, out, at);
    if is_sot(part) {
        numbers::write_u16(out, at + ISOT, 0);
    }
}

// Writes the parts from `start` on, and tells where they end.
fn write_parts(tile_parts: &[u8], codestream: &[u8], out: &mut [u8], start: usize) -> usize
    requires { start + length (joined (parts_in codestream.now (records_in tile_parts.now))) ≤ length out.old }
    ensures value { result ≡ start + length (joined (parts_in codestream.now (records_in tile_parts.now))) }
    ensures out_after { out.new ≡ put out.old start (joined (parts_in codestream.now (records_in tile_parts.now))) }
{
    let mut place = start;
    for row in tile_parts.chunks_exact(ROW) {
        if let Some(part) = part_of(row, codestream) {
            write_part(part, out, place);
            place += part.len();
        }
    }
    place
}

pub fn build_minimal_codestream(
    decode_header: &[u8],
    tile_parts: &[u8],
    codestream: &[u8],
    rule: Rule,
    out: &mut [u8],
) -> Result<u64, Refusal>
    ensures value { result ≡ assembly_answer rule decode_header.now tile_parts.now codestream.now (length out.old) }
    ensures out_after { out.new ≡ assembly_out rule decode_header.now tile_parts.now codestream.now out.old }
{
    let size = size_for(decode_header, tile_parts, codestream, rule)?;
    let all = size_needed(decode_header, tile_parts, codestream);
    let needed = crate::rewrite::judge(Ok(size), all, out.len() as u64)?;
    crate::rewrite::write_header(decode_header, Ok(size), out);
    let end = write_parts(tile_parts, codestream, out, decode_header.len());
    numbers::write_u16(out, end, EOC);
    Ok(needed)
}
