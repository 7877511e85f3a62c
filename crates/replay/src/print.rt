// What is written of an answer. What follows a word stands behind a space.
use header::parse::MainHeaderInfo;
use lengths::check::{Difference, Said};
use reader::components::{ComponentInfo, Components};
use std::io;
use std::io::Write;
use types::table::Element;
use types::{Area, CodestreamOffset, PartNumbers, Refusal, TilePartEntry};

// The payload is too short for its kind, or the kind is none.
pub(crate) fn unknown<W: Write>(out: &mut W) -> io::Result<()> {
    write!(out, "unknown kind")
}

// The line, with its entries, of a table of rows or of records.
pub(crate) fn header<W: Write, E: Element>(
    out: &mut W,
    answer: Result<MainHeaderInfo, Refusal>,
    table: &[E],
    bytes: &[u8],
) -> io::Result<()> {
    let Ok(info) = answer else {
        return write!(out, "header refused");
    };
    let long = info.decode_header_length;
    write!(
        out,
        "header {} {long} {}",
        info.first_sot_offset.0, info.fillers
    )?;
    hex(out, bytes, long)?;
    if info.tlm_entries == 0 {
        write!(out, " none")?;
    }
    entries(out, table, info.tlm_entries, false)
}

// The line of a scan but for its entries; gives how many follow.
pub(crate) fn scan<W: Write>(out: &mut W, answer: Result<u64, Refusal>) -> io::Result<u64> {
    let Ok(count) = answer else {
        write!(out, "scan refused")?;
        return Ok(0);
    };
    write!(out, "scan {count}")?;
    Ok(count)
}

pub(crate) fn finding<W: Write>(
    out: &mut W,
    answer: Result<Option<CodestreamOffset>, Refusal>,
) -> io::Result<()> {
    match answer {
        Ok(Some(offset)) => write!(out, " {}", offset.0),
        Ok(None) => write!(out, " none"),
        Err(why) => refused(out, why),
    }
}

pub(crate) fn checked<W: Write>(
    out: &mut W,
    answer: Result<Option<Difference>, Refusal>,
) -> io::Result<()> {
    match answer {
        Ok(None) => write!(out, " passes"),
        Ok(Some(at)) => {
            write!(out, " differs {} {}, listed", at.number, at.offset.0)?;
            said(out, at.listed)?;
            write!(out, ", standing")?;
            said(out, at.standing)
        }
        Err(why) => refused(out, why),
    }
}

fn said<W: Write>(out: &mut W, what: Option<Said>) -> io::Result<()> {
    match what {
        Some(part) => write!(out, " {} {}", part.tile, part.length),
        None => write!(out, " none"),
    }
}

// How many boxes there are, and all of the table.
pub(crate) fn boxes<W: Write>(
    out: &mut W,
    answer: Result<u64, Refusal>,
    table: &[u8],
) -> io::Result<()> {
    match answer {
        Ok(count) => {
            write!(out, " {count}")?;
            hex(out, table, table.len() as u64)
        }
        Err(why) => refused(out, why),
    }
}

pub(crate) fn written<W: Write>(
    out: &mut W,
    answer: Result<u64, Refusal>,
    bytes: &[u8],
) -> io::Result<()> {
    match answer {
        Ok(count) => hex(out, bytes, count),
        Err(why) => refused(out, why),
    }
}

pub(crate) fn components<W: Write>(
    out: &mut W,
    read: Result<Components, Refusal>,
) -> io::Result<()> {
    match read {
        Ok(info) => {
            write!(out, " {}", info.count)?;
            area(out, info.area)
        }
        Err(why) => refused(out, why),
    }
}

pub(crate) fn component<W: Write>(
    out: &mut W,
    read: Result<Option<ComponentInfo>, Refusal>,
) -> io::Result<()> {
    match read {
        Ok(Some(info)) => {
            let signed = u64::from(info.is_signed);
            write!(out, " {} {signed} {} {}", info.bits, info.xrsiz, info.yrsiz)?;
            area(out, info.area)
        }
        Ok(None) => write!(out, " none"),
        Err(why) => refused(out, why),
    }
}

fn area<W: Write>(out: &mut W, on_grid: Area) -> io::Result<()> {
    let Area { x0, y0, x1, y1 } = on_grid;
    write!(out, " {x0} {y0} {x1} {y1}")
}

fn refused<W: Write>(out: &mut W, why: Refusal) -> io::Result<()> {
    write!(out, " refused {} {}", why.number(), why.place)
}

// The first records of a table, which has as many; each with its numbers, or without.
pub(crate) fn entries<W: Write, E: Element>(
    out: &mut W,
    table: &[E],
    count: u64,
    numbered: bool,
) -> io::Result<()> {
    let end = (count as usize).min(table.len() / E::WIDTH);
    for n in 0..end {
        record(out, E::read(table, n), numbered)?;
    }
    Ok(())
}

// The records of a table that the keys of a run say.
pub(crate) fn records_of<W: Write>(
    out: &mut W,
    table: &[TilePartEntry],
    run: &[u64],
) -> io::Result<()> {
    for key in run {
        if let Some(entry) = table.get(index::keys::number_of(*key) as usize) {
            record(out, *entry, true)?;
        }
    }
    Ok(())
}

fn record<W: Write>(out: &mut W, entry: TilePartEntry, numbered: bool) -> io::Result<()> {
    write!(
        out,
        " {} {} {}",
        entry.tile_index, entry.offset.0, entry.length
    )?;
    if !numbered {
        return Ok(());
    }
    match entry.numbers {
        PartNumbers::Known { tpsot, tnsot } => write!(out, " {tpsot} {tnsot}"),
        PartNumbers::NotKnown => write!(out, " not known"),
    }
}

// Whether a tile's tile-parts stand in order.
pub(crate) fn order<W: Write>(out: &mut W, answer: bool) -> io::Result<()> {
    let not = if answer { "" } else { "not " };
    write!(out, ", {not}in order")
}

// What is said of as many entries as follow, without them; gives how many they are.
pub(crate) fn indexed<W: Write>(
    out: &mut W,
    word: &str,
    answer: Result<u64, Refusal>,
) -> io::Result<u64> {
    write!(out, "{word}")?;
    let Ok(count) = answer else {
        write!(out, " refused")?;
        return Ok(0);
    };
    Ok(count)
}

// The keys of an index: the tile and the number of each.
pub(crate) fn keys<W: Write>(out: &mut W, index: &[u64]) -> io::Result<()> {
    for key in index {
        let tile = index::keys::tile_of(*key);
        let number = index::keys::number_of(*key);
        write!(out, " {tile} {number}")?;
    }
    Ok(())
}

// Where a tile's run stands in an index, and how many keys it has.
pub(crate) fn run<W: Write>(out: &mut W, index: &[u64], tile: u16) -> io::Result<()> {
    let mut first: u64 = 0;
    let mut count: u64 = 0;
    index::run::tell(index, tile, &mut first, &mut count);
    write!(out, ", run {first} {count}")
}

// The first bytes of a buffer, which has as many.
fn hex<W: Write>(out: &mut W, bytes: &[u8], count: u64) -> io::Result<()> {
    write!(out, " ")?;
    for byte in bytes.iter().take(count as usize) {
        write!(out, "{byte:02x}")?;
    }
    Ok(())
}
