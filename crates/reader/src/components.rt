// The components' sizes (docs/RULES.md, "Components"): one check of SIZ, and then each component by itself.
ghost use Rattle.std.specs.Prelude.{◌≡◌, true, ◌+◌, ◌*◌, ◌≤◌, ◌<◌, length};
ghost use Rattle.numbers.specs.Ceiling.{ceil_div};
ghost use Rattle.types.specs.Siz.{component};
ghost use Rattle.tile.specs.Siz.{marker};
ghost use Rattle.reader.specs.Components.{siz_whole, count_held, apart, all_apart, components_read, components_in_tile, divided, component_at, component_in, component_of, component_in_tile};

use header::step::HeaderStep;
use tile::rules::Rule;
use tile::siz::MARKER;
use types::markers::{SIZ, SOC};
use types::{Area, Reason, Refusal, refuse, siz};

// What the check tells: how many components there are, and where the image or the tile lies on the reference grid.
#[derive(Clone, Copy)]
pub struct Components {
    pub count: u16,
    pub area: Area,
}

// A component's samples, and its part of an area, counted in them.
#[derive(Clone, Copy)]
pub struct ComponentInfo {
    pub bits: u8,
    pub is_signed: bool,
    pub xrsiz: u8,
    pub yrsiz: u8,
    pub area: Area,
}

// Whether SIZ's length is that of as many components as it counts.
fn count_held(codestream: &[u8]) -> bool
    requires { siz_whole codestream.now ≡ true }
    ensures { result ≡ count_held codestream.now }
{
    let lsiz = numbers::read_u16(codestream, MARKER + siz::LSIZ) as u32;
    if lsiz < 41 {
        return false;
    }
    // 38 + 3 * Csiz of 41 or more: no count of 0 comes so far.
    let csiz = numbers::read_u16(codestream, MARKER + siz::CSIZ) as u32;
    lsiz == 38 + 3 * csiz && csiz <= 16_384
}

// Whether neither of a component's steps is 0, by the place of its three bytes.
fn is_apart(codestream: &[u8], at: usize) -> bool
    requires { at + 3 ≤ length codestream.now }
    ensures { result ≡ apart codestream.now at }
{
    1 <= codestream[at + 1] && 1 <= codestream[at + 2]
}

// By `for`, as `all` over the numbers asks for more with each component: nine instructions, and not seven.
fn are_apart(codestream: &[u8], count: u16) -> bool
    requires { component marker count ≤ length codestream.now }
    ensures { result ≡ all_apart codestream.now count }
{
    for k in 0..count as usize {
        if !is_apart(codestream, MARKER + siz::SSIZ + siz::COMPONENT * k) {
            return false;
        }
    }
    true
}

pub fn read_components(codestream: &[u8]) -> Result<Components, Refusal>
    ensures { result ≡ components_read codestream.now }
{
    if !header::parse::marker_stands(codestream, 0, SOC) {
        return refuse(Reason::NoSoc, 0);
    }
    if !header::parse::marker_stands(codestream, MARKER, SIZ) {
        return refuse(Reason::NoSiz, MARKER as u64);
    }
    let HeaderStep::Segment(_) = header::step::header_step(codestream, MARKER) else {
        return refuse(Reason::SegmentPastEnd, MARKER as u64);
    };
    if !count_held(codestream) {
        return refuse(Reason::ComponentsNotHeld, MARKER as u64);
    }
    let count = numbers::read_u16(codestream, MARKER + siz::CSIZ);
    if !are_apart(codestream, count) {
        return refuse(Reason::SubsamplingOf0, MARKER as u64);
    }
    let area = tile::rules::image_area(codestream);
    if area.x1 < area.x0 || area.y1 < area.y0 {
        return refuse(Reason::ImageEndsBeforeItStarts, MARKER as u64);
    }
    Ok(Components { count, area })
}

pub fn read_components_in_tile(
    codestream: &[u8],
    tile: u16,
    rule: Rule,
) -> Result<Components, Refusal>
    ensures { result ≡ components_in_tile rule codestream.now tile }
{
    let count = read_components(codestream)?.count;
    let area = tile::rules::place(codestream, tile, rule)?;
    Ok(Components { count, area })
}

// A place of the reference grid in samples that lie so far apart.
fn divide(place: u32, step: u8) -> u32
    requires { 0 < step }
    ensures { result ≡ ceil_div place step }
{
    numbers::ceil_div(place as u64, step as u64) as u32
}

fn divide_area(area: Area, xrsiz: u8, yrsiz: u8) -> Area
    requires { (0 < xrsiz) × (0 < yrsiz) }
    ensures { result ≡ divided area xrsiz yrsiz }
{
    Area {
        x0: divide(area.x0, xrsiz),
        y0: divide(area.y0, yrsiz),
        x1: divide(area.x1, xrsiz),
        y1: divide(area.y1, yrsiz),
    }
}

fn component_at(codestream: &[u8], area: Area, at: usize) -> ComponentInfo
    requires at_in_bounds { at + 3 ≤ length codestream.now }
    requires at_value { apart codestream.now at ≡ true }
    ensures { result ≡ component_at codestream.now area at }
{
    let ssiz = codestream[at];
    let xrsiz = codestream[at + 1];
    let yrsiz = codestream[at + 2];
    ComponentInfo {
        bits: ssiz % 128 + 1,
        is_signed: 128 <= ssiz,
        xrsiz,
        yrsiz,
        area: divide_area(area, xrsiz, yrsiz),
    }
}

// One component by itself, in an area that a check gave: it asks for no more than its own bytes.
pub fn component_within(
    codestream: &[u8],
    area: Area,
    number: u64,
) -> Result<Option<ComponentInfo>, Refusal>
    ensures { result ≡ component_in codestream.now area number }
{
    if codestream.len() < MARKER + siz::SSIZ
        || numbers::read_u16(codestream, MARKER + siz::CSIZ) as u64 <= number
    {
        return Ok(None);
    }
    let at = MARKER + siz::SSIZ + siz::COMPONENT * (number as usize);
    if codestream.len() < at + siz::COMPONENT || !is_apart(codestream, at) {
        return Ok(None);
    }
    Ok(Some(component_at(codestream, area, at)))
}

pub fn component(codestream: &[u8], number: u64) -> Result<Option<ComponentInfo>, Refusal>
    ensures { result ≡ component_of codestream.now number }
{
    component_within(codestream, read_components(codestream)?.area, number)
}

pub fn component_in_tile(
    codestream: &[u8],
    tile: u16,
    rule: Rule,
    number: u64,
) -> Result<Option<ComponentInfo>, Refusal>
    ensures { result ≡ component_in_tile rule codestream.now tile number }
{
    component_within(
        codestream,
        read_components_in_tile(codestream, tile, rule)?.area,
        number,
    )
}
