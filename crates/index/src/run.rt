// A tile's run in the index, found by halving.
ghost use Rattle.std.specs.Prelude.{◌≡◌, ◌+◌, ◌≤◌, length};
ghost use Rattle.index.specs.Run.{first_from, run_in, some_number};

use std::ops::Range;

// The first place from `from` on whose key is of this tile or a later one. Not `partition_point`, which promises nothing of keys that
// are in no order: any index may be lent, and each gets an answer.
fn first_from(index: &[u64], tile: u64, from: usize) -> usize
    requires { from ≤ length index.now }
    ensures value { result ≡ first_from index.now tile from }
    ensures lower_bound { from ≤ result }
    ensures upper_bound { result ≤ length index.now }
{
    let mut lo = from;
    let mut hi = index.len();
    while lo < hi {
        let middle = lo + (hi - lo) / 2;
        if crate::keys::tile_of(index[middle]) < tile {
            lo = middle + 1;
        } else {
            hi = middle;
        }
    }
    lo
}

// Where the tile's run stands.
fn places(index: &[u64], tile: u16) -> Range<usize>
    ensures from_value { result.start ≡ first_from index.now tile 0 }
    ensures to_value { result.end ≡ first_from index.now (tile + 1) (first_from index.now tile 0) }
    ensures from_le_to { result.start ≤ result.end }
    ensures to_in_bounds { result.end ≤ length index.now }
{
    let from = first_from(index, tile as u64, 0);
    let to = first_from(index, (tile as u64) + 1, from);
    from..to
}

// The tile's keys, of the caller's own; none where it has no entry.
pub fn tile_run(index: &[u64], tile: u16) -> &[u64]
    ensures { result.now ≡ run_in index.now tile }
{
    &index[places(index, tile)]
}

// A tile's run for C: 1, and 0 where there is none. `first` is where it stands in the index, and `count` how many keys it has.
pub fn tell(index: &[u64], tile: u16, first: &mut u64, count: &mut u64) -> u32
    ensures value { result ≡ some_number (run_in index.now tile) }
    ensures first_after { first.new ≡ first_from index.now tile 0 }
    ensures count_after { count.new ≡ length (run_in index.now tile) }
{
    let run = places(index, tile);
    *first = run.start as u64;
    *count = (run.end - run.start) as u64;
    u32::from(run.start < run.end)
}
