// Answers the stored list of cases in `cases`, a line for each; what it must write is what the original answered, and for
// component sizes, tiles by Annex B or kept in place, markers, the number of fillers, the order of tile-parts, their index by
// tile, the check of a length table and the list of boxes, which that does not tell, the model (rust/beside, program `cases`). A
// case is its kind, a byte; the length of its payload, 4 bytes; the payload.
#![tactic(auto)]

ghost use Rattle.std.specs.Prelude.{◌≡◌, ◌≤◌, IfOk, length};

mod answers;
mod by_tile;
mod print;
mod tables;

use header::edition::Edition;
use header::numbering::Numbering;
use header::reading::Reading;
use std::io::{Read, Write};
use std::{fs, io};
use tile::rules::Rule;

fn main(rt: HostRuntime) -> io::Result<()> {
    let mut cases = fs::open(&rt, "cases")?;
    answer_all(&mut io::writer(&rt), &mut cases)
}

// Nothing says that a file ends, so the turns are counted up to a number that no run uses up.
fn answer_all<W: Write, R: Read>(out: &mut W, cases: &mut R) -> io::Result<()> {
    for _ in 0..u64::MAX {
        if !answer_next(out, cases)? {
            break;
        }
    }
    Ok(())
}

// One case, or false where the list has ended.
fn answer_next<W: Write, R: Read>(out: &mut W, cases: &mut R) -> io::Result<bool> {
    let mut frame = [0u8; 5];
    if read_full(cases, &mut frame)? < 5 {
        return Ok(false);
    }
    let size = numbers::read_u32(&frame, 1) as usize;
    if 0x1_0000 < size {
        return Ok(false);
    }
    let mut payload = large_buffer();
    if read_full(cases, &mut payload[..size])? < size {
        return Ok(false);
    }
    answer(out, frame[0], &payload[..size])?;
    Ok(true)
}

// Fills the buffer as far as the input reaches, and gives how far that is. `tileparts` has the same, since what a library
// exports is to settle its answer, and how far an input reaches is no such thing.
fn read_full<R: Read>(input: &mut R, buffer: &mut [u8]) -> io::Result<usize>
    ensures { IfOk result (λ size. size ≤ length buffer.new) }
{
    let mut filled: usize = 0;
    for _ in 0..buffer.len() {
        let read = input.read(&mut buffer[filled..])?;
        if read == 0 {
            break;
        }
        filled += read;
    }
    Ok(filled)
}

fn answer<W: Write>(out: &mut W, kind: u8, payload: &[u8]) -> io::Result<()> {
    match kind {
        1 => answers::extent(out, payload),
        2 => tables::header(out, payload, older(Numbering::Restarting)),
        3 => tables::scan(out, payload),
        4 => answers::split(out, payload),
        5 => answers::rewrite(out, payload, Rule::Original),
        6 => answers::assembly(out, payload, Rule::Original),
        7 => answers::search(out, payload),
        8 => answers::siz(out, payload),
        9 => answers::growth(out, payload),
        10 => tables::header_records(out, payload, older(Numbering::Restarting)),
        11 => tables::scan_records(out, payload),
        12 => answers::component_sizes(out, payload),
        13 => answers::rewrite(out, payload, Rule::AnnexB),
        14 => answers::assembly(out, payload, Rule::AnnexB),
        15 => answers::rewrite(out, payload, Rule::InPlace),
        16 => answers::assembly(out, payload, Rule::InPlace),
        17 => answers::marker(out, payload),
        18 => tables::header(out, payload, older(Numbering::CarriedOn)),
        19 => tables::header_records(out, payload, older(Numbering::CarriedOn)),
        20 => tables::header(out, payload, newer()),
        21 => tables::header_records(out, payload, newer()),
        22 => tables::order(out, payload),
        23 => tables::order_records(out, payload),
        24 => by_tile::rows(out, payload),
        25 => by_tile::records(out, payload),
        26 => answers::length_table(out, payload),
        27 => answers::boxes(out, payload),
        _ => print::unknown(out),
    }?;
    writeln!(out)
}

// Room for what a case writes.
pub(crate) fn large_buffer() -> [u8; 65536]
    ensures { 65536 ≡ length result }
{
    [0; 65536]
}

fn older(numbering: Numbering) -> Reading {
    Reading {
        numbering,
        edition: Edition::Older,
    }
}

fn newer() -> Reading {
    Reading {
        numbering: Numbering::CarriedOn,
        edition: Edition::Newer,
    }
}
