// The order of a tile's tile-parts in a table of records.
ghost use Rattle.std.specs.Prelude.{◌≡◌};
ghost use Rattle.parts.specs.Order.{in_order, order_number};
ghost use Rattle.probe.specs.Own.{own};

// In as many records as `table` has rows, 2,048 at most. It answers 1 where they stand in order, and 0 where they do not.
#[unsafe(no_mangle)]
pub extern "C" fn winterhasp_records_in_order(table: &[u8], tile: u16) -> u32
    ensures { result ≡ order_number (in_order tile (own table.now)) }
{
    probe::order::winterhasp_records_in_order(table, tile)
}
