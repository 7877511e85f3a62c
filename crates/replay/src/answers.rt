// The answers without a table of tile-parts, one function for each kind of case.
use crate::print;
use reader::{box_row, components};
use std::io;
use std::io::Write;
use tile::rules::Rule;
use types::{Area, ROW};

// The payload is the prefix.
pub(crate) fn extent<W: Write>(out: &mut W, prefix: &[u8]) -> io::Result<()> {
    match header::extent::main_header_extent(prefix) {
        Some(first_sot) => write!(out, "extent complete {}", first_sot.0),
        None => write!(out, "extent truncated"),
    }
}

// The payload is the marker, 2 bytes, and the codestream.
pub(crate) fn marker<W: Write>(out: &mut W, payload: &[u8]) -> io::Result<()> {
    if payload.len() < 2 {
        return print::unknown(out);
    }
    write!(out, "marker")?;
    print::finding(
        out,
        header::find::find_marker(&payload[2..], numbers::read_u16(payload, 0)),
    )
}

// The payload is the header's region, 8 bytes, and the codestream.
pub(crate) fn length_table<W: Write>(out: &mut W, payload: &[u8]) -> io::Result<()> {
    if payload.len() < 8 {
        return print::unknown(out);
    }
    write!(out, "check")?;
    print::checked(
        out,
        lengths::check::check_length_table(&payload[8..], numbers::read_u64(payload, 0)),
    )
}

// The payload is the tile's buffer.
pub(crate) fn split<W: Write>(out: &mut W, tile: &[u8]) -> io::Result<()> {
    let count = parts::split::split_count(tile);
    write!(out, "split {count}")?;
    for k in 0..count {
        write!(out, " {}", parts::split::split_part(tile, k).len())?;
    }
    Ok(())
}

// The rule that the answers of a kind go by, in its line.
fn name(rule: Rule) -> &'static str {
    match rule {
        Rule::AnnexB => "-b",
        Rule::Original => "",
        Rule::InPlace => "-p",
    }
}

// The payload is the index, 2 bytes, and the header.
pub(crate) fn rewrite<W: Write>(out: &mut W, payload: &[u8], rule: Rule) -> io::Result<()> {
    if payload.len() < 2 {
        return print::unknown(out);
    }
    let isot = numbers::read_u16(payload, 0);
    let mut bytes = crate::large_buffer();
    let answer = tile::rewrite::rewrite_siz_for_tile(&payload[2..], isot, rule, &mut bytes);
    write!(out, "rewrite{}", name(rule))?;
    print::written(out, answer, &bytes)
}

// The payload is the header's length, 4 bytes, the header, the number of rows, 2 bytes, the rows, and the codestream.
pub(crate) fn assembly<W: Write>(out: &mut W, payload: &[u8], rule: Rule) -> io::Result<()> {
    if payload.len() < 4 {
        return print::unknown(out);
    }
    let header_end = 4 + numbers::read_u32(payload, 0) as usize;
    let from = header_end + 2;
    if payload.len() < from {
        return print::unknown(out);
    }
    let to = from + numbers::read_u16(payload, header_end) as usize * ROW;
    if payload.len() < to {
        return print::unknown(out);
    }
    assemble(
        out,
        &payload[4..header_end],
        &payload[from..to],
        &payload[to..],
        rule,
    )
}

fn assemble<W: Write>(
    out: &mut W,
    header: &[u8],
    rows: &[u8],
    codestream: &[u8],
    rule: Rule,
) -> io::Result<()> {
    let mut bytes = crate::large_buffer();
    let answer = tile::assembly::build_minimal_codestream(
        header, rows, codestream, rule, &mut bytes,
    );
    write!(out, "assembly{}", name(rule))?;
    print::written(out, answer, &bytes)
}

// The payload is the file.
pub(crate) fn search<W: Write>(out: &mut W, file: &[u8]) -> io::Result<()> {
    match reader::search::find_codestream(file) {
        Ok(found) => write!(out, "search {} {}", found.start.0, found.length),
        Err(_) => write!(out, "search refused"),
    }
}

// The payload is how many rows the table has, 2 bytes, and the file.
pub(crate) fn boxes<W: Write>(out: &mut W, payload: &[u8]) -> io::Result<()> {
    if payload.len() < 2 {
        return print::unknown(out);
    }
    let size = numbers::read_u16(payload, 0) as usize * box_row::ROW;
    if 0x1_0000 < size {
        return print::unknown(out);
    }
    let mut table = crate::large_buffer();
    list_boxes(out, &payload[2..], &mut table[..size])
}

fn list_boxes<W: Write>(out: &mut W, file: &[u8], table: &mut [u8]) -> io::Result<()> {
    let answer = reader::boxes::list_boxes(file, table);
    write!(out, "boxes")?;
    print::boxes(out, answer, table)
}

// The payload is the codestream.
pub(crate) fn siz<W: Write>(out: &mut W, codestream: &[u8]) -> io::Result<()> {
    let Ok(info) = reader::siz::parse_siz_marker(codestream) else {
        return write!(out, "siz refused");
    };
    let bits = info.bits_per_component;
    let signed = info.is_signed;
    let sample = reader::siz::pixel_type_from_siz(bits, signed);
    write!(
        out,
        "siz {} {} {} {bits} {} {}",
        info.width,
        info.height,
        info.num_components,
        u64::from(signed),
        sample as u32
    )
}

// The payload is the region and the codestream's length, 8 bytes each.
pub(crate) fn growth<W: Write>(out: &mut W, payload: &[u8]) -> io::Result<()> {
    if payload.len() != 16 {
        return print::unknown(out);
    }
    let region = numbers::read_u64(payload, 0);
    let length = numbers::read_u64(payload, 8);
    write!(
        out,
        "growth {}",
        reader::growth::next_region(region, length)
    )
}

// The payload is the tile's index, 2 bytes, the component's number, 8 bytes, and the codestream.
pub(crate) fn component_sizes<W: Write>(out: &mut W, payload: &[u8]) -> io::Result<()> {
    if payload.len() < 10 {
        return print::unknown(out);
    }
    write!(out, "components")?;
    sizes_of(
        out,
        &payload[10..],
        numbers::read_u16(payload, 0),
        numbers::read_u64(payload, 2),
    )
}

// In the image, in the tile, and in an area that is the same for every case.
fn sizes_of<W: Write>(out: &mut W, codestream: &[u8], tile: u16, number: u64) -> io::Result<()> {
    print::components(out, components::read_components(codestream))?;
    write!(out, ",")?;
    print::components(
        out,
        components::read_components_in_tile(codestream, tile, Rule::AnnexB),
    )?;
    write!(out, ",")?;
    print::component(out, components::component(codestream, number))?;
    write!(out, ",")?;
    print::component(
        out,
        components::component_in_tile(codestream, tile, Rule::AnnexB, number),
    )?;
    write!(out, ",")?;
    let area = Area {
        x0: 1,
        y0: 254,
        x1: 65_537,
        y1: 0xffff_ffff,
    };
    print::component(out, components::component_within(codestream, area, number))
}
