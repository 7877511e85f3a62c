// A box of the tree, and its 29 bytes in a lent table (docs/RULES.md, "Boxes").
ghost use Rattle.std.specs.Prelude.{◌≡◌, ◌+◌, ◌≤◌, ◌<◌, ◌^◌, length};
ghost use Rattle.numbers.specs.Bytes.{put};
ghost use Rattle.reader.specs.BoxRow.{box_row_bytes, row_of, end_of};

use types::FileOffset;

// Its depth, 1 at the top; its type; where it starts; where its content starts, and the content's length.
#[derive(Clone, Copy)]
pub struct BoxEntry {
    pub depth: u8,
    pub kind: u32,
    pub start: FileOffset,
    pub content: FileOffset,
    pub length: u64,
}

// Where a box ends, as a position in the file.
pub fn end_of(entry: BoxEntry) -> usize
    requires { end_of entry < 2 ^ 64 }
    ensures { result ≡ end_of entry }
{
    FileOffset(entry.content.0 + entry.length).position()
}

// The bytes of a box in a lent table: depth 1, type 4, start 8, content 8, length 8.
pub const ROW: usize = 29;

pub fn write_row(table: &mut [u8], at: usize, entry: BoxEntry)
    requires { at + box_row_bytes ≤ length table.old }
    ensures { table.new ≡ put table.old at (row_of entry) }
{
    table[at] = entry.depth;
    numbers::write_u32(table, at + 1, entry.kind);
    numbers::write_u64(table, at + 5, entry.start.0);
    numbers::write_u64(table, at + 13, entry.content.0);
    numbers::write_u64(table, at + 21, entry.length);
}
