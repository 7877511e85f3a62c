// The tile-parts of a codestream, one record each, in a table lent by the caller (docs/RULES.md, "SOT scan").
ghost use Rattle.std.specs.Prelude.{◌≡◌, ◌+◌, ◌*◌, ◌/◌, ◌^◌, ◌≤◌, ◌<◌, length, take, replicate};
ghost use Rattle.numbers.specs.Bytes.{put};
ghost use Rattle.types.specs.Row.{row_bytes, rows_of};
ghost use Rattle.parts.specs.Scan.{entries_from, scanned, scanned_in, scanned_table};
ghost use Rattle.parts.specs.Begin.{blank_at, Begins, refused_behind};

use crate::walk::{Passed, Stop};
use types::table::Element;
use types::{CodestreamOffset, ROW, Reason, Refusal};

// As scan_sot_markers, whatever the table is made of, and writes no record before all are judged.
pub fn scan_judged<E: Element>(
    codestream: &[u8],
    first_sot_offset: CodestreamOffset,
    table: &mut [E],
) -> Result<u64, Refusal>
    ensures value { result ≡ scanned codestream.now first_sot_offset.0 (length table.old / E.WIDTH) }
    ensures table_after { table.new ≡ scanned_in E.layout codestream.now first_sot_offset.0 table.old }
{
    let runs = crate::walk::decide(
        codestream,
        first_sot_offset,
        (table.len() / E::WIDTH) as u64,
    )?;
    crate::fill::fill(codestream, first_sot_offset.position(), runs, table);
    Ok(runs.parts)
}

// Whether a row is zeros.
fn blank_row(table: &[u8], row: usize) -> bool
    requires { row + row_bytes ≤ length table.now }
    ensures { result ≡ blank_at table.now row }
{
    numbers::read_u64(table, row) == 0
        && numbers::read_u64(table, row + 8) == 0
        && numbers::read_u64(table, row + 13) == 0
}

// Writes the records while it judges, as long as their rows were zeros, and tells how far it came.
fn begin(codestream: &[u8], start: usize, table: &mut [u8]) -> Passed
    ensures begins { Begins codestream.now start table.old result }
    ensures table_after { table.new ≡ put table.old 0 (rows_of (take result.count (entries_from codestream.now start))) }
{
    let mut at = start;
    let mut count: u64 = 0;
    let mut row: usize = 0;
    while ROW <= table.len() - row {
        if !blank_row(table, row) {
            return Passed {
                count,
                at,
                stop: Stop::Full,
            };
        }
        let step = crate::step::scan_step(codestream, at);
        match step {
            Ok(Some(entry)) => {
                types::write_row(table, row, entry);
                row += ROW;
                count += 1;
                at = types::end_of(entry).position();
            }
            Ok(None) => {
                return Passed {
                    count,
                    at,
                    stop: Stop::Ended,
                };
            }
            Err(refusal) => {
                return Passed {
                    count,
                    at,
                    stop: Stop::Refused(refusal),
                };
            }
        }
    }
    Passed {
        count,
        at,
        stop: Stop::Full,
    }
}

// Zeros up to there.
fn clear(table: &mut [u8], end: usize)
    requires { end ≤ length table.old }
    ensures { table.new ≡ put table.old 0 (replicate end 0) }
{
    table[..end].fill(0);
}

// A refusal behind so many records: 18 counts these too.
fn behind(count: u64, refusal: Refusal) -> Refusal
    requires { count + refusal.place < 2 ^ 64 }
    ensures { result ≡ refused_behind count refusal }
{
    match refusal.reason {
        Reason::TableTooSmall => Refusal {
            reason: refusal.reason,
            place: count + refusal.place,
        },
        _ => refusal,
    }
}

// The table has as many rows as it has room for. Where it is zeros, the codestream is read once: rows are written as they are judged,
// and are zeros again where the scan is refused.
pub fn scan_sot_markers(
    codestream: &[u8],
    first_sot_offset: CodestreamOffset,
    table: &mut [u8],
) -> Result<u64, Refusal>
    ensures value { result ≡ scanned codestream.now first_sot_offset.0 (length table.old / row_bytes) }
    ensures table_after { table.new ≡ scanned_table codestream.now first_sot_offset.0 table.old }
{
    let begun = begin(codestream, first_sot_offset.position(), table);
    let done = begun.count as usize * ROW;
    let stop = begun.stop;
    match stop {
        Stop::Ended => Ok(begun.count),
        Stop::Refused(refusal) => {
            clear(table, done);
            Err(refusal)
        }
        Stop::Full => {
            let rest = scan_judged(
                codestream,
                CodestreamOffset::at(begun.at),
                &mut table[done..],
            );
            match rest {
                Ok(more) => Ok(begun.count + more),
                Err(refusal) => {
                    clear(table, done);
                    Err(behind(begun.count, refusal))
                }
            }
        }
    }
}
