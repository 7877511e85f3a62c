// The index by tile of a table of records.
ghost use Rattle.std.specs.Prelude.{◌≡◌, length};
ghost use Rattle.types.specs.Refusals.{answer_number, answer_value};
ghost use Rattle.index.specs.Extend.{old_of, extended, index_after, scratch_after};
ghost use Rattle.probe.specs.Own.{held, own};

// Of as many records as `table` has rows, 2,048 at most, extended from `have` entries on. `value`: entries, or the entries needed.
#[unsafe(no_mangle)]
pub extern "C" fn winterhasp_records_index(
    table: &[u8],
    have: u64,
    index: &mut [u64],
    scratch: &mut [u64],
    value: &mut u64,
) -> u32
    ensures value { result ≡ answer_number (extended (held table.now) have (length index.old) (length scratch.old)) }
    ensures value_after { value.new ≡ answer_value (extended (held table.now) have (length index.old) (length scratch.old)) }
    ensures index_after { index.new ≡ index_after (extended (held table.now) have (length index.old) (length scratch.old)) (own table.now) (old_of have (held table.now)) index.old }
    ensures scratch_after { scratch.new ≡ scratch_after (extended (held table.now) have (length index.old) (length scratch.old)) (own table.now) (old_of have (held table.now)) scratch.old }
{
    probe::by_tile::winterhasp_records_index(table, have, index, scratch, value)
}
