// Whether the tile-parts of one tile stand in order, for C.
ghost use Rattle.std.specs.Prelude.{◌≡◌};
ghost use Rattle.types.specs.Row.{records_in};
ghost use Rattle.parts.specs.Order.{in_order, order_number};

// 1 where they do, and 0 where they do not, where the numbers of one are not known, and where there is none. `table` is read as rows of 21 bytes; a partial row at its end is none.
pub fn winterhasp_tile_in_order(table: &[u8], tile: u16) -> u32
    ensures { result ≡ order_number (in_order tile (records_in table.now)) }
{
    parts::order::tell(parts::order::tile_in_order(table, tile))
}
