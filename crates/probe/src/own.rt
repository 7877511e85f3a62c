// Rows that are lent, as records of a table of this crate's own, and back: a record holds an enum, so a slice of records cannot cross
// to C, and this is how the functions over such slices are run.
ghost use Rattle.std.specs.Prelude.{◌≡◌, ◌*◌, ◌≤◌, length, take};
ghost use Rattle.numbers.specs.Bytes.{put};
ghost use Rattle.types.specs.Row.{row_bytes, rows_of, records_at};
ghost use Rattle.records.specs.Tables.{blank};
ghost use Rattle.probe.specs.Own.{held};

use types::{ROW, TilePartEntry};

// So many of the first rows are held.
pub fn count(table: &[u8]) -> usize
    ensures { result ≡ held table.now }
{
    (table.len() / ROW).min(2048)
}

// The records of so many rows, and blank ones behind them.
pub fn load(rows: &[u8], count: usize) -> [TilePartEntry; 2048]
    requires count_bound { count ≤ 2048 }
    requires count_in_bounds { row_bytes * count ≤ length rows.now }
    ensures { result ≡ put blank 0 (records_at count rows.now 0) }
{
    let mut table = records::tables::new_table();
    let mut at: usize = 0;
    for i in 0..count {
        let entry = types::read_row(rows, at);
        table[i] = entry;
        at += ROW;
    }
    table
}

// Writes the rows of so many records.
pub fn store(table: [TilePartEntry; 2048], count: usize, rows: &mut [u8])
    requires count_bound { count ≤ 2048 }
    requires count_in_bounds { row_bytes * count ≤ length rows.old }
    ensures { rows.new ≡ put rows.old 0 (rows_of (take count table)) }
{
    let mut at: usize = 0;
    for i in 0..count {
        types::write_row(rows, at, table[i]);
        at += ROW;
    }
}
