// Where a file holds its codestream: in the first jp2c box, or from the start on (docs/RULES.md, "Codestream search").
// Boxes are those of ISO/IEC 15444-1, annex I.4.
ghost use Rattle.std.specs.Prelude.{◌≡◌};
ghost use Rattle.reader.specs.Search.{box_at, is_jp2, content, passed, move_of, found_from, found_in, content_of};

use types::markers::SOC;
use types::{FileOffset, Reason, Refusal, refuse};

// The type of the box that holds the codestream: "jp2c".
const JP2C: u32 = 0x6a70_3263;

// Where the codestream starts, and its length.
#[derive(Clone, Copy)]
pub struct Codestream {
    pub start: FileOffset,
    pub length: u64,
}

// A box's type, the length of its header, and its own length, header included.
#[derive(Clone, Copy)]
pub struct BoxHeader {
    pub kind: u32,
    pub header: u64,
    pub length: u64,
}

// Why no box was read.
#[derive(Clone, Copy, PartialEq, Eq)]
pub enum NoBox {
    // Fewer than 8 bytes are left.
    End,
    // The length stands in 8 bytes more, and fewer are left.
    CutShort,
}

pub fn box_at(file: &[u8], at: usize) -> Result<BoxHeader, NoBox>
    ensures { result ≡ box_at file.now at }
{
    let left = file.len().saturating_sub(at) as u64;
    if left < 8 {
        return Err(NoBox::End);
    }
    let length = numbers::read_u32(file, at);
    let kind = numbers::read_u32(file, at + 4);
    if length == 1 {
        if left < 16 {
            return Err(NoBox::CutShort);
        }
        return Ok(BoxHeader {
            kind,
            header: 16,
            length: numbers::read_u64(file, at + 8),
        });
    }
    Ok(BoxHeader {
        kind,
        header: 8,
        length: if length == 0 { left } else { length as u64 },
    })
}

// What a jp2c box at a place of a file of a size holds.
fn content_of_box(size: u64, at: u64, found: BoxHeader) -> Result<Codestream, Refusal>
    ensures { result ≡ content size at found }
{
    if found.length < found.header {
        return refuse(Reason::CodestreamBoxTooShort, at);
    }
    let Some(end) = at.checked_add(found.length) else {
        return refuse(Reason::BoxTooLong, at);
    };
    let start = at + found.header;
    Ok(Codestream {
        start: FileOffset(start),
        length: end.min(size).saturating_sub(start),
    })
}

// Where a box of another type ends.
fn pass_box(at: usize, found: BoxHeader) -> Result<usize, Refusal>
    ensures { move_of result ≡ passed at found }
{
    if found.length < found.header {
        return refuse(Reason::NoCodestreamBox, at as u64);
    }
    match at.checked_add(found.length as usize) {
        Some(end) => Ok(end),
        None => refuse(Reason::BoxTooLong, at as u64),
    }
}

fn find_jp2c(file: &[u8]) -> Result<Codestream, Refusal>
    ensures { result ≡ found_from file.now 0 }
{
    let mut at: usize = 0;
    loop {
        let found = match box_at(file, at) {
            Ok(found) => found,
            Err(NoBox::End) => return refuse(Reason::NoCodestreamBox, at as u64),
            Err(NoBox::CutShort) => return refuse(Reason::BoxCutShort, at as u64),
        };
        if found.kind == JP2C {
            return content_of_box(file.len() as u64, at as u64, found);
        }
        at = pass_box(at, found)?;
    }
}

// Whether a file starts with JP2's signature box.
fn is_jp2(file: &[u8]) -> bool
    ensures { result ≡ is_jp2 file.now }
{
    12 <= file.len()
        && (numbers::read_u64(file, 0) == 0x0000_000c_6a50_2020
            && numbers::read_u32(file, 8) == 0x0d0a_870a)
}

pub fn find_codestream(file: &[u8]) -> Result<Codestream, Refusal>
    ensures { result ≡ found_in file.now }
{
    if file.len() < 2 {
        return refuse(Reason::FileTooShort, 0);
    }
    if is_jp2(file) {
        return find_jp2c(file);
    }
    if numbers::read_u16(file, 0) != SOC {
        return refuse(Reason::NotJpeg2000, 0);
    }
    Ok(Codestream {
        start: FileOffset(0),
        length: file.len() as u64,
    })
}

// The codestream as a part of the file; where the search refuses, an empty one.
pub fn codestream_of(file: &[u8]) -> &[u8]
    ensures { result.now ≡ content_of file.now }
{
    let Ok(found) = find_codestream(file) else {
        return &file[..0];
    };
    let from = found.start.position();
    &file[from..from + found.length as usize]
}
