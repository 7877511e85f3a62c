// Where a tile lies by the standard's rule (docs/RULES.md, "Tiles by Annex B"; ISO/IEC 15444-1, B.3): counted from the tile origin, and
// clipped to the image on both sides, in 64 bits.
ghost use Rattle.std.specs.Prelude.{◌≡◌, true, ◌+◌, ◌≤◌, ◌<◌, length};
ghost use Rattle.tile.specs.AnnexB.{side_at, laid, cells_of, from_of, to_of, in_cells, grid_tile};

use crate::siz::field;
use types::{Area, siz};

// A tile along one axis.
pub use crate::siz::Span;

// SIZ along one axis.
#[derive(Clone, Copy)]
pub struct Side {
    pub end: u32,
    pub origin: u32,
    pub size: u32,
    pub tile_origin: u32,
}

// Why no tile is told.
#[derive(Clone, Copy)]
pub enum NoTile {
    // The fields make no grid of tiles.
    NoGrid,
    // The index is past the last tile of the grid.
    PastGrid,
}

// What is added to the place of a field across: each field down stands behind it.
const ACROSS: usize = 0;

const DOWN: usize = 4;

fn side_at(header: &[u8], axis: usize) -> Side
    requires { 36 + axis ≤ length header.now }
    ensures { result ≡ side_at header.now axis }
{
    Side {
        end: field(header, siz::XSIZ + axis),
        origin: field(header, siz::XOSIZ + axis),
        size: field(header, siz::XTSIZ + axis),
        tile_origin: field(header, siz::XTOSIZ + axis),
    }
}

// Whether there is a grid along an axis: the image is not empty, and the first tile starts no later and reaches into it.
fn is_laid(side: Side) -> bool
    ensures { result ≡ laid side }
{
    // A tile of size 0 reaches into nothing.
    side.tile_origin <= side.origin
        && side.origin < side.end
        && (side.origin as u64) < side.tile_origin as u64 + side.size as u64
}

// How many columns of tiles, or rows.
fn cells(side: Side) -> u64
    requires { laid side ≡ true }
    ensures { result ≡ cells_of side }
{
    numbers::ceil_div((side.end - side.tile_origin) as u64, side.size as u64)
}

// The tile in a column, or in a row.
fn span_of(side: Side, cell: u64) -> Span
    requires side_value { laid side ≡ true }
    requires cell_bound { cell < cells_of side }
    ensures { (result.from ≡ from_of side cell) × (result.to ≡ to_of side cell) }
{
    let from = side.tile_origin as u64 + cell * (side.size as u64);
    let to = from + side.size as u64;
    Span {
        from: from.max(side.origin as u64) as u32,
        to: to.min(side.end as u64) as u32,
    }
}

fn in_cells(across: Side, down: Side, tile: u32) -> Result<Area, NoTile>
    requires across_value { laid across ≡ true }
    requires down_value { laid down ≡ true }
    ensures { result ≡ in_cells across down tile }
{
    let columns = cells(across);
    let rows = cells(down);
    if columns * rows <= tile as u64 {
        return Err(NoTile::PastGrid);
    }
    let x = span_of(across, tile as u64 % columns);
    let y = span_of(down, tile as u64 / columns);
    Ok(Area {
        x0: x.from,
        y0: y.from,
        x1: x.to,
        y1: y.to,
    })
}

pub fn tile_area(header: &[u8], isot: u16) -> Result<Area, NoTile>
    requires { 40 ≤ length header.now }
    ensures { result ≡ grid_tile header.now isot }
{
    let across = side_at(header, ACROSS);
    if !is_laid(across) {
        return Err(NoTile::NoGrid);
    }
    let down = side_at(header, DOWN);
    if !is_laid(down) {
        return Err(NoTile::NoGrid);
    }
    in_cells(across, down, isot as u32)
}
