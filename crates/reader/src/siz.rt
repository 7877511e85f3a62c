// The image's size and its samples, from the first SIZ that is met (docs/RULES.md, "SIZ reading").
ghost use Rattle.std.specs.Prelude.{◌≡◌};
ghost use Rattle.reader.specs.Siz.{move_of, move_at, siz_at, siz_read, sample_type};

use types::markers::SIZ;
use types::{Reason, Refusal, refuse, siz};

#[derive(Clone, Copy)]
pub struct SizInfo {
    pub width: u32,
    pub height: u32,
    pub num_components: u32,
    pub bits_per_component: u8,
    pub is_signed: bool,
}

// How a picture's samples are held.
#[derive(Clone, Copy)]
pub enum SampleType {
    UInt8,
    Int8,
    UInt16,
    Int16,
    UInt32,
    Int32,
}

// SIZ, its marker and its fields up to the first component's: Ssiz is the 41st byte.
fn read_siz(codestream: &[u8], at: usize) -> Result<SizInfo, Refusal>
    ensures { result ≡ siz_at codestream.now at }
{
    if codestream.len().saturating_sub(at) < 41 {
        return refuse(Reason::SizCutShort, at as u64);
    }
    let xsiz = numbers::read_u32(codestream, at + siz::XSIZ);
    let ysiz = numbers::read_u32(codestream, at + siz::YSIZ);
    let xosiz = numbers::read_u32(codestream, at + siz::XOSIZ);
    let yosiz = numbers::read_u32(codestream, at + siz::YOSIZ);
    let csiz = numbers::read_u16(codestream, at + siz::CSIZ);
    let ssiz = codestream[at + siz::SSIZ];
    if xsiz < xosiz || ysiz < yosiz {
        return refuse(Reason::ImageEndsBeforeItStarts, at as u64);
    }
    Ok(SizInfo {
        width: xsiz - xosiz,
        height: ysiz - yosiz,
        num_components: csiz as u32,
        bits_per_component: ssiz % 128 + 1,
        is_signed: 128 <= ssiz,
    })
}

// Where the search goes on, which may lie past the end; None where SIZ stands.
fn siz_step(codestream: &[u8], at: usize) -> Result<Option<usize>, Refusal>
    ensures { move_of codestream.now at result ≡ move_at codestream.now at }
{
    let left = codestream.len().saturating_sub(at);
    if left < 2 {
        return refuse(Reason::SizNotFound, at as u64);
    }
    if codestream[at] != 0xff {
        return Ok(Some(at + 1));
    }
    if numbers::read_u16(codestream, at) == SIZ {
        return Ok(None);
    }
    if left < 4 {
        return refuse(Reason::SizNotFound, at as u64);
    }
    Ok(Some(at + (2 + numbers::read_u16(codestream, at + 2) as usize)))
}

pub fn parse_siz_marker(codestream: &[u8]) -> Result<SizInfo, Refusal>
    ensures { result ≡ siz_read codestream.now }
{
    let mut at: usize = 2;
    while let Some(next) = siz_step(codestream, at)? {
        at = next;
    }
    read_siz(codestream, at)
}

pub fn pixel_type_from_siz(bits: u8, signed: bool) -> SampleType
    ensures { result ≡ sample_type bits signed }
{
    match bits {
        1..=8 => if signed {
            SampleType::Int8
        } else {
            SampleType::UInt8
        },
        9..=16 => if signed {
            SampleType::Int16
        } else {
            SampleType::UInt16
        },
        17..=32 => if signed {
            SampleType::Int32
        } else {
            SampleType::UInt32
        },
        _ => SampleType::UInt8,
    }
}
