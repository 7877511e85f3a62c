// A key says an entry of a table: its tile, and its number among all entries. In the order of the keys as numbers tiles ascend, and so do
// a tile's entries.
ghost use Rattle.std.specs.Prelude.{◌≡◌, ◌<◌};
ghost use Rattle.index.specs.Index.{key_of, tile_of, number_of};

use types::TilePartEntry;

// How many entries 48 bits can number; the tile stands in the 16 above them.
pub const ENTRIES: u64 = 281_474_976_710_656;

pub fn key(tile: u16, number: usize) -> u64
    requires { number < 281_474_976_710_656 }
    ensures { result ≡ key_of tile number }
{
    (tile as u64) * ENTRIES + (number as u64)
}

// A record's key.
pub fn key_of(entry: TilePartEntry, number: usize) -> u64
    requires { number < 281_474_976_710_656 }
    ensures { result ≡ key_of entry.tile_index number }
{
    key(entry.tile_index, number)
}

pub fn tile_of(key: u64) -> u64
    ensures { result ≡ tile_of key }
{
    key / ENTRIES
}

pub fn number_of(key: u64) -> u64
    ensures { result ≡ number_of key }
{
    key % ENTRIES
}
