// Where a tile lies by the original's rule (docs/RULES.md, "Tiles by the original's rule"): counted from the image origin, in steps of 32 bits.
ghost use Rattle.std.specs.Prelude.{◌≡◌, ◌≤◌, length};
ghost use Rattle.tile.specs.Original.{axis_of, columns_of, tile_area};

use crate::siz::{Span, field};
use types::{Area, siz};

// The tile in the cell so many tiles from the origin, cut where the image ends; none where a step falls below 0 or passes 2^32-1.
fn span(end: u32, origin: u32, size: u32, cell: u32) -> Option<Span>
    ensures { result ≡ axis_of end origin size cell }
{
    let along = cell.checked_mul(size)?;
    let from = origin.checked_add(along)?;
    let to = from.checked_add(size)?.min(end);
    if to < from {
        return None;
    }
    Some(Span { from, to })
}

// How many columns of tiles; 0 where a step fails too.
fn columns(end: u32, origin: u32, size: u32) -> u32
    ensures { result ≡ columns_of end origin size }
{
    if end < origin || size == 0 {
        return 0;
    }
    numbers::ceil_div((end - origin) as u64, size as u64) as u32
}

pub fn tile_area(header: &[u8], isot: u16) -> Option<Area>
    requires { 40 ≤ length header.now }
    ensures { result ≡ tile_area header.now isot }
{
    let xsiz = field(header, siz::XSIZ);
    let ysiz = field(header, siz::YSIZ);
    let xosiz = field(header, siz::XOSIZ);
    let yosiz = field(header, siz::YOSIZ);
    let xtsiz = field(header, siz::XTSIZ);
    let ytsiz = field(header, siz::YTSIZ);
    let tile = isot as u32;
    let columns = columns(xsiz, xosiz, xtsiz);
    if columns == 0 {
        return None;
    }
    let across = span(xsiz, xosiz, xtsiz, tile % columns)?;
    let down = span(ysiz, yosiz, ytsiz, tile / columns)?;
    Some(Area {
        x0: across.from,
        y0: down.from,
        x1: across.to,
        y1: down.to,
    })
}
