// What a lent table of records is made of: bytes, a row of them to a record, or records themselves. The code that fills and reads tables
// is one for both.
ghost use Rattle.std.specs.Prelude.{◌≡◌, ℕ, ◌+◌, ◌/◌, ◌≤◌, ◌<◌, ◌∷◌, length, drop};
ghost use Rattle.numbers.specs.Bytes.{put};
ghost use Rattle.types.specs.Row.{row_bytes};
ghost use Rattle.types.specs.Layout.{Layout, rows, records};

use crate::{ROW, TilePartEntry};

pub trait Element: Copy {
    // How many a record takes.
    const WIDTH: usize;

    ghost WIDTH: { ℕ };

    ghost layout: { Layout Self WIDTH };

    // Writes a record where it is to start.
    fn write(table: &mut [Self], at: usize, entry: TilePartEntry)
        requires { at + WIDTH ≤ length table.old }
        ensures { table.new ≡ put table.old at (layout.one entry) };

    // The n-th record.
    fn read(table: &[Self], n: usize) -> TilePartEntry
        requires { n < length table.now / WIDTH }
        ensures { drop n (layout.within table.now) ≡ result ∷ drop (n + 1) (layout.within table.now) };
}

impl Element for u8 {
    const WIDTH: usize = ROW;

    ghost WIDTH = { row_bytes };

    ghost layout = { rows };

    fn write(table: &mut [u8], at: usize, entry: TilePartEntry) {
        crate::write_row(table, at, entry);
    }

    fn read(table: &[u8], n: usize) -> TilePartEntry {
        crate::read_row(table, n * ROW)
    }
}

impl Element for TilePartEntry {
    const WIDTH: usize = 1;

    ghost WIDTH = { 1 };

    ghost layout = { records };

    fn write(table: &mut [TilePartEntry], at: usize, entry: TilePartEntry) {
        table[at] = entry;
    }

    fn read(table: &[TilePartEntry], n: usize) -> TilePartEntry {
        table[n]
    }
}
