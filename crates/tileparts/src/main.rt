// The listing program (docs/RULES.md, "Sample A and its listing"): reads a file from standard input and lists its
// codestream, main header, TLM entries and tile-parts. A refused stage's line is the last; otherwise `end` is.
#![tactic(auto)]

ghost use Rattle.std.specs.Prelude.{◌≡◌, ◌≤◌, IfOk, length};

use header::edition::Edition;
use header::numbering::Numbering;
use header::reading::Reading;
use records::tables::{HeaderTable, ScanTable};
use std::io;
use std::io::{Read, Write};
use types::{CodestreamOffset, Reason, Refusal, TilePartEntry};

// The longest input that is listed, in bytes.
const LONGEST: usize = 65_536;

fn main(rt: HostRuntime) -> io::Result<()> {
    let mut out = io::writer(&rt);
    let mut input = new_input();
    let size = read_full(&mut rt.reader(), &mut input)?;
    if LONGEST < size {
        return refuse(
            &mut out,
            Refusal {
                reason: Reason::ListingTooLong,
                place: LONGEST as u64,
            },
        );
    }
    list(&mut out, &input[..size])
}

// Fills the buffer as far as the input reaches, and gives how far that is. `replay` has the same, since what a library
// exports is to settle its answer, and how far an input reaches is no such thing.
fn read_full<R: Read>(input: &mut R, buffer: &mut [u8]) -> io::Result<usize>
    ensures { IfOk result (λ size. size ≤ length buffer.new) }
{
    let mut filled: usize = 0;
    for _ in 0..buffer.len() {
        let read = input.read(&mut buffer[filled..])?;
        if read == 0 {
            break;
        }
        filled += read;
    }
    Ok(filled)
}

fn list<W: Write>(out: &mut W, file: &[u8]) -> io::Result<()> {
    match reader::search::find_codestream(file) {
        Ok(found) => {
            writeln!(out, "codestream {} {}", found.start.0, found.length)?;
            list_header(out, reader::search::codestream_of(file))
        }
        Err(refusal) => refuse(out, refusal),
    }
}

// Offsets from here on are the codestream's.
fn list_header<W: Write>(out: &mut W, codestream: &[u8]) -> io::Result<()> {
    let reading = Reading {
        numbering: Numbering::Restarting,
        edition: Edition::Older,
    };
    let mut decode_header = [0u8; 65536];
    let HeaderTable { answer, table } = records::tables::header_table(
        codestream,
        reading,
        &mut decode_header,
    );
    match answer {
        Ok(info) => {
            let first_sot = info.first_sot_offset;
            writeln!(out, "header {} {}", first_sot.0, info.decode_header_length)?;
            rows(out, "tlm", &table, info.tlm_entries)?;
            list_parts(out, codestream, first_sot)
        }
        Err(refusal) => refuse(out, refusal),
    }
}

fn list_parts<W: Write>(
    out: &mut W,
    codestream: &[u8],
    first_sot: CodestreamOffset,
) -> io::Result<()> {
    let ScanTable { answer, table } = records::tables::scan_table(codestream, first_sot);
    match answer {
        Ok(count) => {
            rows(out, "part", &table, count)?;
            writeln!(out, "end")
        }
        Err(refusal) => refuse(out, refusal),
    }
}

// The first records of a table, which has as many, a line for each.
fn rows<W: Write>(out: &mut W, word: &str, table: &[TilePartEntry], count: u64) -> io::Result<()> {
    for entry in table.iter().take(count as usize) {
        writeln!(
            out,
            "{word} {} {} {}",
            entry.tile_index, entry.offset.0, entry.length
        )?;
    }
    Ok(())
}

fn refuse<W: Write>(out: &mut W, refusal: Refusal) -> io::Result<()> {
    writeln!(out, "refused {} {}", refusal.number(), refusal.place)
}

// Room for one byte more than the longest input, so that a longer one shows.
fn new_input() -> [u8; 65537]
    ensures { 65537 ≡ length result }
{
    [0; 65537]
}
