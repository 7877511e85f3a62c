// The index by tile, for C: a key an entry, its tile times 2^48 and its number in the table. Index and scratch are lent as numbers of
// 8 bytes, in the machine's own order.
ghost use Rattle.std.specs.Prelude.{◌≡◌, ◌/◌, length};
ghost use Rattle.types.specs.Refusals.{answer_number, answer_value};
ghost use Rattle.types.specs.Row.{row_bytes, records_in};
ghost use Rattle.index.specs.Extend.{old_of, extended, index_after, scratch_after, index_made};
ghost use Rattle.index.specs.Run.{first_from, run_in, some_number};
ghost use Rattle.index.specs.Entries.{entries_by, given, given_rows};

// Makes the index of a table's rows. `value`: entries, or the entries needed. The scratch needs room for as many, and then holds the
// same.
#[unsafe(no_mangle)]
pub extern "C" fn winterhasp_index_tiles(
    table: &[u8],
    index: &mut [u64],
    scratch: &mut [u64],
    value: &mut u64,
) -> u32
    ensures value { result ≡ answer_number (extended (length table.now / row_bytes) 0 (length index.old) (length scratch.old)) }
    ensures value_after { value.new ≡ answer_value (extended (length table.now / row_bytes) 0 (length index.old) (length scratch.old)) }
    ensures index_after { index.new ≡ index_made (extended (length table.now / row_bytes) 0 (length index.old) (length scratch.old)) (records_in table.now) index.old }
    ensures scratch_after { scratch.new ≡ index_made (extended (length table.now / row_bytes) 0 (length index.old) (length scratch.old)) (records_in table.now) scratch.old }
{
    host::by_tile::winterhasp_index_tiles(table, index, scratch, value)
}

// Extends an index whose first `have` keys are the index of the table's first `have` rows. The scratch needs room for the other rows' keys.
#[unsafe(no_mangle)]
pub extern "C" fn winterhasp_extend_index(
    table: &[u8],
    have: u64,
    index: &mut [u64],
    scratch: &mut [u64],
    value: &mut u64,
) -> u32
    ensures value { result ≡ answer_number (extended (length table.now / row_bytes) have (length index.old) (length scratch.old)) }
    ensures value_after { value.new ≡ answer_value (extended (length table.now / row_bytes) have (length index.old) (length scratch.old)) }
    ensures index_after { index.new ≡ index_after (extended (length table.now / row_bytes) have (length index.old) (length scratch.old)) (records_in table.now) (old_of have (length table.now / row_bytes)) index.old }
    ensures scratch_after { scratch.new ≡ scratch_after (extended (length table.now / row_bytes) have (length index.old) (length scratch.old)) (records_in table.now) (old_of have (length table.now / row_bytes)) scratch.old }
{
    host::by_tile::winterhasp_extend_index(table, have, index, scratch, value)
}

// A tile's run: 1, and 0 where it has no entry. `first` is where the run stands in the index, and `count` how many keys it has.
#[unsafe(no_mangle)]
pub extern "C" fn winterhasp_tile_run(
    index: &[u64],
    tile: u16,
    first: &mut u64,
    count: &mut u64,
) -> u32
    ensures value { result ≡ some_number (run_in index.now tile) }
    ensures first_after { first.new ≡ first_from index.now tile 0 }
    ensures count_after { count.new ≡ length (run_in index.now tile) }
{
    host::by_tile::winterhasp_tile_run(index, tile, first, count)
}

// A tile's rows out of the table that the index is of. `value`: entries, or the entries needed. `out` has a row for each 21 bytes.
#[unsafe(no_mangle)]
pub extern "C" fn winterhasp_tile_entries(
    table: &[u8],
    index: &[u64],
    tile: u16,
    out: &mut [u8],
    value: &mut u64,
) -> u32
    ensures value { result ≡ answer_number (given (length (entries_by index.now tile (records_in table.now))) (length out.old / row_bytes)) }
    ensures value_after { value.new ≡ answer_value (given (length (entries_by index.now tile (records_in table.now))) (length out.old / row_bytes)) }
    ensures out_after { out.new ≡ given_rows (given (length (entries_by index.now tile (records_in table.now))) (length out.old / row_bytes)) (entries_by index.now tile (records_in table.now)) out.old }
{
    host::by_tile::winterhasp_tile_entries(table, index, tile, out, value)
}
