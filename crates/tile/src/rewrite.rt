// The header for one tile: SIZ is made to describe the tile as the whole image, moved to 0 or in its place, as the rule has it.
// For a tile of full size that would be moved the header stays unchanged, with the whole image's size.
ghost use Rattle.std.specs.Prelude.{◌≡◌, ◌+◌, ◌≤◌, length};
ghost use Rattle.numbers.specs.Bytes.{put};
ghost use Rattle.types.specs.Siz.{XSIZ};
ghost use Rattle.tile.specs.Siz.{marker, pair, one_tile};
ghost use Rattle.tile.specs.Rewrite.{sized, size_in, tile_size, cut_to, Ordered, Room, judged, rewrite_answer, rewrite_out};

use crate::rules::Rule;
use crate::siz::MARKER;
use types::markers::SIZ;
use types::{Area, Reason, Refusal, siz};

fn full_or_cut(width: u32, height: u32, xtsiz: u32, ytsiz: u32) -> Option<Area>
    ensures { Ok result ≡ sized width height xtsiz ytsiz }
{
    if width == xtsiz && height == ytsiz {
        return None;
    }
    Some(Area {
        x0: 0,
        y0: 0,
        x1: width,
        y1: height,
    })
}

fn size_in(header: &[u8], isot: u16, rule: Rule) -> Result<Option<Area>, Refusal>
    requires { 40 ≤ length header.now }
    ensures { result ≡ size_in rule header.now isot }
{
    let tile = crate::rules::place(header, isot, rule)?;
    if rule == Rule::InPlace {
        return Ok(Some(tile));
    }
    let xtsiz = crate::siz::field(header, siz::XTSIZ);
    let ytsiz = crate::siz::field(header, siz::YTSIZ);
    Ok(full_or_cut(tile.x1 - tile.x0, tile.y1 - tile.y0, xtsiz, ytsiz))
}

pub fn tile_size(header: &[u8], isot: u16, rule: Rule) -> Result<Option<Area>, Refusal>
    ensures { result ≡ tile_size rule header.now isot }
{
    if header.len() < 40 || numbers::read_u16(header, MARKER) != SIZ {
        return Ok(None);
    }
    size_in(header, isot, rule)
}

// How many bytes are written, where they have room; a refusal of the rule before 17.
pub fn judge(size: Result<Option<Area>, Refusal>, needed: u64, room: u64) -> Result<u64, Refusal>
    ensures { result ≡ judged size needed room }
{
    size?;
    if room < needed {
        return types::refuse(Reason::OutputTooSmall, needed);
    }
    Ok(needed)
}

// Two fields, by the place of the first.
fn write_pair(out: &mut [u8], place: usize, across: u32, down: u32)
    requires { marker + place + 8 ≤ length out.old }
    ensures { out.new ≡ put out.old (marker + place) (pair across down) }
{
    let at = MARKER + place;
    numbers::write_u32(out, at, across);
    numbers::write_u32(out, at + 4, down);
}

// Image end and origin, tile size and origin.
fn write_one_tile(out: &mut [u8], tile: Area)
    requires in_bounds { 40 ≤ length out.old }
    requires ordered { Ordered tile }
    ensures { out.new ≡ put out.old (marker + XSIZ) (one_tile tile) }
{
    write_pair(out, siz::XSIZ, tile.x1, tile.y1);
    write_pair(out, siz::XOSIZ, tile.x0, tile.y0);
    write_pair(out, siz::XTSIZ, tile.x1 - tile.x0, tile.y1 - tile.y0);
    write_pair(out, siz::XTOSIZ, tile.x0, tile.y0);
}

pub fn write_header(header: &[u8], size: Result<Option<Area>, Refusal>, out: &mut [u8])
    requires room { Room size (length header.now) }
    requires header_in_bounds { length header.now ≤ length out.old }
    ensures { out.new ≡ put out.old 0 (cut_to size header.now) }
{
    numbers::copy_at(header, out, 0);
    match size {
        Ok(Some(tile)) => write_one_tile(out, tile),
        Ok(None) => {}
        Err(_) => {}
    }
}

pub fn rewrite_siz_for_tile(
    decode_header: &[u8],
    isot: u16,
    rule: Rule,
    out: &mut [u8],
) -> Result<u64, Refusal>
    ensures value { result ≡ rewrite_answer rule decode_header.now isot (length out.old) }
    ensures out_after { out.new ≡ rewrite_out rule decode_header.now isot out.old }
{
    let size = tile_size(decode_header, isot, rule);
    let answer = judge(size, decode_header.len() as u64, out.len() as u64);
    let Ok(_) = answer else {
        return answer;
    };
    write_header(decode_header, size, out);
    answer
}
