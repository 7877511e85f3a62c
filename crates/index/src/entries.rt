// A tile's entries by the index, as rows one behind the other: what assembly takes. Whatever was lent as the index, no entry of another
// tile is given.
ghost use Rattle.std.specs.Prelude.{◌≡◌, ◌*◌, ◌/◌, ◌≤◌, length, drop};
ghost use Rattle.numbers.specs.Bytes.{put};
ghost use Rattle.types.specs.Row.{row_bytes, rows_of, records_in};
ghost use Rattle.index.specs.Index.{number_of};
ghost use Rattle.index.specs.Entries.{is_first, picked, entries_by, given, given_rows};

use types::{ROW, Refusal};

// What entries of which there are n are answered with, given room for so many.
fn decide(n: usize, room: usize) -> Result<u64, Refusal>
    ensures { result ≡ given n room }
{
    if n <= room {
        Ok(n as u64)
    } else {
        crate::extend::needs(n)
    }
}

// Whether the table has the entry that a key says, and it is the tile's.
fn is_there(table: &[u8], key: u64, tile: u16) -> bool
    ensures { result ≡ is_first tile (drop (number_of key) (records_in table.now)) }
{
    let number = crate::keys::number_of(key);
    if number < (table.len() / ROW) as u64 {
        return numbers::read_u16(table, (number as usize) * ROW) == tile;
    }
    false
}

fn count(table: &[u8], run: &[u64], tile: u16) -> usize
    ensures { result ≡ length (picked tile (records_in table.now) run.now) }
{
    let mut n: usize = 0;
    for key in run {
        if is_there(table, *key, tile) {
            n += 1;
        }
    }
    n
}

fn fill(table: &[u8], run: &[u64], tile: u16, out: &mut [u8])
    requires { row_bytes * length (picked tile (records_in table.now) run.now) ≤ length out.old }
    ensures { out.new ≡ put out.old 0 (rows_of (picked tile (records_in table.now) run.now)) }
{
    let mut at: usize = 0;
    for key in run {
        if is_there(table, *key, tile) {
            let number = crate::keys::number_of(*key) as usize;
            let entry = types::read_row(table, number * ROW);
            types::write_row(out, at, entry);
            at += ROW;
        }
    }
}

// The entries of a tile, out of the table that the index is of. `out` has a row for each 21 bytes.
pub fn tile_entries(table: &[u8], index: &[u64], tile: u16, out: &mut [u8]) -> Result<u64, Refusal>
    ensures value { result ≡ given (length (entries_by index.now tile (records_in table.now))) (length out.old / row_bytes) }
    ensures out_after { out.new ≡ given_rows result (entries_by index.now tile (records_in table.now)) out.old }
{
    let run = crate::run::tile_run(index, tile);
    let given = decide(count(table, run, tile), out.len() / ROW)?;
    fill(table, run, tile, out);
    Ok(given)
}
