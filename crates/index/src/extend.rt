// The index of a table, made afresh or extended by the entries that were appended to the table. The index and a scratch are lent; where
// one is too small nothing is written.
ghost use Rattle.std.specs.Prelude.{◌≡◌, ◌+◌, ◌/◌, ◌≤◌, length, take, drop, Err};
ghost use Rattle.types.specs.Refusals.{refusal};
ghost use Rattle.types.specs.Row.{row_bytes, records_in};
ghost use Rattle.index.specs.Index.{index_from};
ghost use Rattle.index.specs.Sort.{sorted};
ghost use Rattle.index.specs.Merge.{merged};
ghost use Rattle.index.specs.Extend.{old_of, extended, index_after, scratch_after, index_made, keys_from};
ghost use Rattle.types.specs.declared.Reason.TheVariants.{TableTooSmall};

use crate::keys::ENTRIES;
use types::table::Element;
use types::{Reason, Refusal};

// How many of n entries are old. An index that is said to have more is another table's, and is made afresh.
pub fn old_of(have: usize, n: usize) -> usize
    ensures { result ≡ old_of have n }
{
    if have <= n { have } else { 0 }
}

// So many entries are needed.
pub fn needs(n: usize) -> Result<u64, Refusal>
    ensures { result ≡ Err (refusal TableTooSmall n) }
{
    types::refuse(Reason::TableTooSmall, n as u64)
}

// What making or extending an index of n entries answers.
pub fn decide(n: usize, have: usize, room: usize, scratch: usize) -> Result<u64, Refusal>
    ensures { result ≡ extended n have room scratch }
{
    if ENTRIES < (n as u64) || room < n || scratch < n - old_of(have, n) {
        return needs(n);
    }
    Ok(n as u64)
}

// New keys, in the order of the table, sorted and put among the index's first `have`.
pub fn add(index: &mut [u64], have: usize, new: &mut [u64])
    requires { length index.old ≡ have + length new.old }
    ensures index_after { index.new ≡ merged (take have index.old) (sorted new.old) }
    ensures after { new.new ≡ sorted new.old }
{
    crate::sort::sort(new, &mut index[have..]);
    crate::merge::merge(index, have, new);
}

// The keys of a table's entries from the one with this number on.
fn fill<E: Element>(table: &[E], first: usize, keys: &mut [u64])
    requires keys_value { first + length keys.old ≡ length table.now / E.WIDTH }
    requires keys_bound { first + length keys.old ≤ 281_474_976_710_656 }
    ensures { keys.new ≡ keys_from first (drop first (E.layout.within table.now)) }
{
    for i in 0..keys.len() {
        let entry = E::read(table, first + i);
        keys[i] = crate::keys::key_of(entry, first + i);
    }
}

// The index's first `old` keys, merged with the index of the table's other entries; `new` has room for these.
fn append<E: Element>(table: &[E], old: usize, index: &mut [u64], new: &mut [u64])
    requires index_len { length index.old ≡ length table.now / E.WIDTH }
    requires index_len_2 { length index.old ≡ old + length new.old }
    requires index_len_bound { length index.old ≤ 281_474_976_710_656 }
    ensures index_after { index.new ≡ merged (take old index.old) (index_from old (drop old (E.layout.within table.now))) }
    ensures after { new.new ≡ index_from old (drop old (E.layout.within table.now)) }
{
    fill(table, old, new);
    add(index, old, new);
}

// Where the index's first `have` keys are the index of the table's first `have` entries, it becomes that of the table. What is too
// short for an entry at the table's end is none.
pub fn extend<E: Element>(
    table: &[E],
    have: usize,
    index: &mut [u64],
    scratch: &mut [u64],
) -> Result<u64, Refusal>
    ensures value { result ≡ extended (length table.now / E.WIDTH) have (length index.old) (length scratch.old) }
    ensures index_after { index.new ≡ index_after result (E.layout.within table.now) (old_of have (length table.now / E.WIDTH)) index.old }
    ensures scratch_after { scratch.new ≡ scratch_after result (E.layout.within table.now) (old_of have (length table.now / E.WIDTH)) scratch.old }
{
    let n = table.len() / E::WIDTH;
    let entries = decide(n, have, index.len(), scratch.len())?;
    let old = old_of(have, n);
    let new = n - old;
    append(table, old, &mut index[..n], &mut scratch[..new]);
    Ok(entries)
}

// Over a table of rows.
pub fn extend_index(
    table: &[u8],
    have: usize,
    index: &mut [u64],
    scratch: &mut [u64],
) -> Result<u64, Refusal>
    ensures value { result ≡ extended (length table.now / row_bytes) have (length index.old) (length scratch.old) }
    ensures index_after { index.new ≡ index_after result (records_in table.now) (old_of have (length table.now / row_bytes)) index.old }
    ensures scratch_after { scratch.new ≡ scratch_after result (records_in table.now) (old_of have (length table.now / row_bytes)) scratch.old }
{
    extend(table, have, index, scratch)
}

// Afresh.
pub fn index_tiles(table: &[u8], index: &mut [u64], scratch: &mut [u64]) -> Result<u64, Refusal>
    ensures value { result ≡ extended (length table.now / row_bytes) 0 (length index.old) (length scratch.old) }
    ensures index_after { index.new ≡ index_made result (records_in table.now) index.old }
    ensures scratch_after { scratch.new ≡ index_made result (records_in table.now) scratch.old }
{
    extend_index(table, 0, index, scratch)
}
