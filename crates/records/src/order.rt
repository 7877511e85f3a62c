// Whether the tile-parts of one tile stand in order in a slice of records lent by the caller (docs/RULES.md, "Tile-parts in order").
ghost use Rattle.std.specs.Prelude.{◌≡◌};
ghost use Rattle.parts.specs.Order.{in_order};

use types::TilePartEntry;

pub fn tile_in_order(table: &[TilePartEntry], tile: u16) -> bool
    ensures { result ≡ in_order tile table.now }
{
    parts::order::in_order(table, tile)
}
