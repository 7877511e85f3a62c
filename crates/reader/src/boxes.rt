// Every box of a file (docs/RULES.md, "Boxes"): a list of boxes opens a superbox, and a superbox holds a list of boxes.
// Places are positions in the file: the list that a superbox holds is read in the file up to where the superbox ends.
ghost use Rattle.std.specs.Prelude.{◌≡◌, ◌+◌, ◌*◌, ◌/◌, ◌≤◌, ◌<◌, length};
ghost use Rattle.numbers.specs.Bytes.{put};
ghost use Rattle.reader.specs.BoxRow.{box_row_bytes, rows_of, end_of};
ghost use Rattle.reader.specs.BoxStep.{deepest};
ghost use Rattle.reader.specs.Boxes.{boxes_in, contents_of, counted, Accepted, entries_of, listed, listed_table};

use crate::box_row::{BoxEntry, ROW};
use crate::box_step::ListStep;
use types::{Reason, Refusal, refuse};

// Counts the boxes of a list that fills `within` from `start` on, and of all lists that it holds.
#[cycle(count_boxes_count_superbox)]
fn count_boxes(within: &[u8], depth: u8, start: usize) -> Result<u64, Refusal>
    requires { depth ≤ deepest }
    ensures { result ≡ counted (boxes_in within.now depth start) }
{
    let mut at = start;
    let mut count: u64 = 0;
    while let Some(step) = crate::box_step::list_step(within, depth, at)? {
        count += 1;
        match step {
            ListStep::Plain(entry) => at = crate::box_row::end_of(entry),
            ListStep::Superbox(entry) => {
                count += count_superbox(within, entry)?;
                at = crate::box_row::end_of(entry);
            }
        }
    }
    Ok(count)
}

// Counts the boxes that a superbox holds.
#[cycle(count_boxes_count_superbox)]
fn count_superbox(within: &[u8], entry: BoxEntry) -> Result<u64, Refusal>
    requires depth_lt_deepest { entry.depth < deepest }
    requires in_bounds { end_of entry ≤ length within.now }
    ensures { result ≡ counted (contents_of within.now entry) }
{
    let to = crate::box_row::end_of(entry);
    count_boxes(&within[..to], entry.depth + 1, entry.content.position())
}

// What a listing into a table of so many rows answers.
fn decide(file: &[u8], rows: u64) -> Result<u64, Refusal>
    ensures { result ≡ listed file.now rows }
{
    let count = count_boxes(file, 1, 0)?;
    if rows < count {
        return refuse(Reason::TableTooSmall, count);
    }
    Ok(count)
}

// Writes the boxes of a list, and of all lists that it holds, one row after the other; gives where the rows end. A table that has no
// room for a row more has them all; so none is written past its end, where another process writes to the file meanwhile.
#[cycle(fill_boxes_fill_superbox)]
fn fill_boxes(within: &[u8], depth: u8, start: usize, table: &mut [u8], first: usize) -> usize
    requires depth_le_deepest { depth ≤ deepest }
    requires accepted { Accepted (boxes_in within.now depth start) }
    requires start_in_bounds { first + box_row_bytes * length (entries_of (boxes_in within.now depth start)) ≤ length table.old }
    ensures value { result ≡ first + box_row_bytes * length (entries_of (boxes_in within.now depth start)) }
    ensures table_after { table.new ≡ put table.old first (rows_of (entries_of (boxes_in within.now depth start))) }
{
    let mut at = start;
    let mut row = first;
    while ROW <= table.len() - row {
        let Some(step) = crate::box_step::list_step(within, depth, at).unwrap_or(None) else {
            return row;
        };
        match step {
            ListStep::Plain(entry) => {
                crate::box_row::write_row(table, row, entry);
                row += ROW;
                at = crate::box_row::end_of(entry);
            }
            ListStep::Superbox(entry) => {
                crate::box_row::write_row(table, row, entry);
                row = fill_superbox(within, entry, table, row + ROW);
                at = crate::box_row::end_of(entry);
            }
        }
    }
    row
}

// Writes the boxes that a superbox holds.
#[cycle(fill_boxes_fill_superbox)]
fn fill_superbox(within: &[u8], entry: BoxEntry, table: &mut [u8], first: usize) -> usize
    requires depth_lt_deepest { entry.depth < deepest }
    requires in_bounds { end_of entry ≤ length within.now }
    requires accepted { Accepted (contents_of within.now entry) }
    requires in_bounds_2 { first + box_row_bytes * length (entries_of (contents_of within.now entry)) ≤ length table.old }
    ensures value { result ≡ first + box_row_bytes * length (entries_of (contents_of within.now entry)) }
    ensures table_after { table.new ≡ put table.old first (rows_of (entries_of (contents_of within.now entry))) }
{
    let to = crate::box_row::end_of(entry);
    fill_boxes(
        &within[..to],
        entry.depth + 1,
        entry.content.position(),
        table,
        first,
    )
}

// Every box of a file, in file order. The table has a row for each 29 bytes.
pub fn list_boxes(file: &[u8], table: &mut [u8]) -> Result<u64, Refusal>
    ensures value { result ≡ listed file.now (length table.old / box_row_bytes) }
    ensures table_after { table.new ≡ listed_table file.now table.old }
{
    let count = decide(file, (table.len() / ROW) as u64)?;
    fill_boxes(file, 1, 0, table, 0);
    Ok(count)
}
