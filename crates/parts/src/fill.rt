// The records of tile-parts that are judged, from four places at once and then one after the other.
ghost use Rattle.std.specs.Prelude.{◌≡◌, ◌+◌, ◌*◌, ◌≤◌, length, take, drop};
ghost use Rattle.numbers.specs.Bytes.{put};
ghost use Rattle.parts.specs.Sot.{psot};
ghost use Rattle.parts.specs.Scan.{entry_of, entries_from};
ghost use Rattle.parts.specs.Walk.{Quartered};

use crate::walk::Quarters;
use types::markers::PSOT;
use types::table::Element;

// Writes the record of a tile-part that others follow, and tells where the next one stands.
fn write_part<E: Element>(codestream: &[u8], at: usize, table: &mut [E], row: usize) -> usize
    requires at_in_bounds { at + 12 ≤ length codestream.now }
    requires at_in_bounds_2 { at + psot codestream.now at ≤ length codestream.now }
    requires width_in_bounds { row + E.WIDTH ≤ length table.old }
    ensures value { result ≡ at + psot codestream.now at }
    ensures table_after { table.new ≡ put table.old row (E.layout.one (entry_of codestream.now at (psot codestream.now at))) }
{
    let psot = numbers::read_u32(codestream, at + PSOT);
    let entry = crate::step::entry_at(codestream, at, psot as u64);
    E::write(table, row, entry);
    at + psot as usize
}

// Writes the records of the four runs, a row of each in turn: so a run's loads do not wait for another's. Tells where they end.
fn fill_runs<E: Element>(codestream: &[u8], start: usize, runs: Quarters, table: &mut [E]) -> usize
    requires quartered { Quartered codestream.now start runs }
    requires parts_in_bounds { E.WIDTH * runs.parts ≤ length table.old }
    ensures result_value { entries_from codestream.now result ≡ drop (4 * runs.turns) (entries_from codestream.now start) }
    ensures table_after { table.new ≡ put table.old 0 (E.layout.all (take (4 * runs.turns) (entries_from codestream.now start))) }
{
    let wide = E::WIDTH * runs.turns;
    let mut first = start;
    let mut second = runs.second;
    let mut third = runs.third;
    let mut fourth = runs.fourth;
    let mut row: usize = 0;
    while row < wide {
        first = write_part(codestream, first, table, row);
        second = write_part(codestream, second, table, wide + row);
        third = write_part(codestream, third, table, 2 * wide + row);
        fourth = write_part(codestream, fourth, table, 3 * wide + row);
        row += E::WIDTH;
    }
    fourth
}

// Writes the records from a position on to the last, one row after the other. The next position comes after the row: before it, LLVM
// reads Psot byte by byte.
fn fill_rest<E: Element>(
    codestream: &[u8],
    start: usize,
    count: usize,
    table: &mut [E],
    first_row: usize,
)
    requires count_value { count ≡ length (entries_from codestream.now start) }
    requires count_in_bounds { first_row + E.WIDTH * count ≤ length table.old }
    ensures { table.new ≡ put table.old first_row (E.layout.all (entries_from codestream.now start)) }
{
    let mut at = start;
    let mut row = first_row;
    for _ in 0..count {
        let entry = crate::step::part_at(codestream, at);
        E::write(table, row, entry);
        row += E::WIDTH;
        at = crate::step::next_at(codestream, at);
    }
}

// All of them.
pub fn fill<E: Element>(codestream: &[u8], start: usize, runs: Quarters, table: &mut [E])
    requires quartered { Quartered codestream.now start runs }
    requires parts_in_bounds { E.WIDTH * runs.parts ≤ length table.old }
    ensures { table.new ≡ put table.old 0 (E.layout.all (entries_from codestream.now start)) }
{
    let done = 4 * runs.turns;
    let end = fill_runs(codestream, start, runs, table);
    fill_rest(
        codestream,
        end,
        runs.parts as usize - done,
        table,
        E::WIDTH * done,
    );
}
