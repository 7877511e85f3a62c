// The index by tile of a slice of records lent by the caller (docs/RULES.md, "An index by tile"): the same keys as of a table of rows,
// since they hold numbers of entries.
ghost use Rattle.std.specs.Prelude.{◌≡◌, length};
ghost use Rattle.index.specs.Extend.{old_of, extended, index_after, scratch_after, index_made};

use types::{Refusal, TilePartEntry};

// Where the index's first `have` keys are the index of the table's first `have` records, it becomes that of the table.
pub fn extend_index(
    table: &[TilePartEntry],
    have: usize,
    index: &mut [u64],
    scratch: &mut [u64],
) -> Result<u64, Refusal>
    ensures value { result ≡ extended (length table.now) have (length index.old) (length scratch.old) }
    ensures index_after { index.new ≡ index_after result table.now (old_of have (length table.now)) index.old }
    ensures scratch_after { scratch.new ≡ scratch_after result table.now (old_of have (length table.now)) scratch.old }
{
    index::extend::extend(table, have, index, scratch)
}

// Afresh.
pub fn index_tiles(
    table: &[TilePartEntry],
    index: &mut [u64],
    scratch: &mut [u64],
) -> Result<u64, Refusal>
    ensures value { result ≡ extended (length table.now) 0 (length index.old) (length scratch.old) }
    ensures index_after { index.new ≡ index_made result table.now index.old }
    ensures scratch_after { scratch.new ≡ index_made result table.now scratch.old }
{
    extend_index(table, 0, index, scratch)
}
