// Whether the tile-parts of one tile stand in order in a table (docs/RULES.md, "Tile-parts in order").
ghost use Rattle.std.specs.Prelude.{◌≡◌};
ghost use Rattle.types.specs.Row.{records_in};
ghost use Rattle.parts.specs.Order.{order_step, order_end, order_number, in_order};

use types::table::Element;
use types::{PartNumbers, TilePartEntry};

// So many of the tile's were passed, each in its place; and the TNsot that they gave, or 0.
#[derive(Clone, Copy)]
pub struct Due {
    pub passed: u64,
    pub given: u8,
}

// One record. Another tile's is left out; the tile's has to be the one that is due, and has to give the same TNsot as those before it
// or none. A TNsot that is given is tested and then taken over: chosen first and tested then, each record's waits for the one before.
pub fn order_step(entry: TilePartEntry, tile: u16, due: Due) -> Option<Due>
    ensures { result ≡ order_step entry tile due }
{
    if entry.tile_index != tile {
        return Some(due);
    }
    let PartNumbers::Known { tpsot, tnsot } = entry.numbers else {
        return None;
    };
    if u64::from(tpsot) != due.passed {
        return None;
    }
    let mut given = due.given;
    if tnsot != 0 {
        if given != 0 && given != tnsot {
            return None;
        }
        given = tnsot;
    }
    Some(Due {
        passed: due.passed + 1,
        given,
    })
}

// Behind the last record: there was one of the tile, and a TNsot that was given is their number.
pub fn order_end(due: Due) -> bool
    ensures { result ≡ order_end due }
{
    due.passed != 0 && (due.given == 0 || u64::from(due.given) == due.passed)
}

// An answer for C.
pub fn tell(answer: bool) -> u32
    ensures { result ≡ order_number answer }
{
    u32::from(answer)
}

// Over a table; what is too short for a record at its end is none.
pub fn in_order<E: Element>(table: &[E], tile: u16) -> bool
    ensures { result ≡ in_order tile (E.layout.within table.now) }
{
    let mut due = Due {
        passed: 0,
        given: 0,
    };
    for i in 0..table.len() / E::WIDTH {
        let Some(next) = order_step(E::read(table, i), tile, due) else {
            return false;
        };
        due = next;
    }
    order_end(due)
}

// Over a table of rows.
pub fn tile_in_order(table: &[u8], tile: u16) -> bool
    ensures { result ≡ in_order tile (records_in table.now) }
{
    in_order(table, tile)
}
