// One tile-part of a codestream: what stands where a scan has come to, and its record (docs/RULES.md, "SOT scan").
ghost use Rattle.std.specs.Prelude.{◌≡◌, ◌+◌, ◌≤◌, length};
ghost use Rattle.parts.specs.Sot.{psot};
ghost use Rattle.parts.specs.Scan.{entry_of, eoc_at, part_at, sot_step_at, scan_step_at};

use types::markers::{EOC, ISOT, LSOT, LSOT_VALUE, PSOT, SOT, SOT_SEGMENT, TNSOT, TPSOT};
use types::{CodestreamOffset, PartNumbers, Reason, Refusal, TilePartEntry};

fn at_eoc(codestream: &[u8], at: usize) -> bool
    requires { at ≤ length codestream.now }
    ensures { result ≡ eoc_at codestream.now at }
{
    2 <= codestream.len() - at && numbers::read_u16(codestream, at) == EOC
}

// The record of a tile-part of so many bytes whose SOT stands there.
pub fn entry_at(codestream: &[u8], at: usize, bytes: u64) -> TilePartEntry
    requires { at + 12 ≤ length codestream.now }
    ensures { result ≡ entry_of codestream.now at bytes }
{
    let tile_index = numbers::read_u16(codestream, at + ISOT);
    let tpsot = codestream[at + TPSOT];
    let tnsot = codestream[at + TNSOT];
    TilePartEntry {
        tile_index,
        numbers: PartNumbers::Known { tpsot, tnsot },
        offset: CodestreamOffset::at(at),
        length: bytes,
    }
}

// The record of the tile-part whose SOT stands there. Psot 0 is to the codestream's end.
pub fn part_at(codestream: &[u8], at: usize) -> TilePartEntry
    requires { at + 12 ≤ length codestream.now }
    ensures { result ≡ part_at codestream.now at }
{
    let psot = numbers::read_u32(codestream, at + PSOT) as usize;
    if psot == 0 {
        let rest = codestream.len() - at;
        return entry_at(codestream, at, rest as u64);
    }
    entry_at(codestream, at, psot as u64)
}

// Where Psot says that the next tile-part stands; Psot 0 says nothing, and stays. A walk that asks this and not the record's length
// does not wait for the choice of the length.
pub fn next_at(codestream: &[u8], at: usize) -> usize
    requires at_in_bounds { at + 12 ≤ length codestream.now }
    requires at_in_bounds_2 { at + psot codestream.now at ≤ length codestream.now }
    ensures { result ≡ at + psot codestream.now at }
{
    at + numbers::read_u32(codestream, at + PSOT) as usize
}

// A record in each branch, and not the one of part_at: the walk waits for the length, and would for its choice.
fn sot_step(codestream: &[u8], at: usize) -> Result<Option<TilePartEntry>, Refusal>
    requires { at + 12 ≤ length codestream.now }
    ensures { result ≡ sot_step_at codestream.now at }
{
    let place = at as u64;
    if numbers::read_u16(codestream, at + LSOT) != LSOT_VALUE {
        return types::refuse(Reason::SotLengthWrong, place);
    }
    let psot = numbers::read_u32(codestream, at + PSOT) as usize;
    let rest = codestream.len() - at;
    if psot == 0 {
        return Ok(Some(entry_at(codestream, at, rest as u64)));
    }
    if rest < psot {
        return types::refuse(Reason::TilePartPastEnd, place);
    }
    Ok(Some(entry_at(codestream, at, psot as u64)))
}

// EOC is asked for only where no tile-part fits, as any other marker ends the scan too: so a walk asks least where there are many.
pub fn scan_step(codestream: &[u8], at: usize) -> Result<Option<TilePartEntry>, Refusal>
    ensures { result ≡ scan_step_at codestream.now at }
{
    if codestream.len() <= at {
        return Ok(None);
    }
    if codestream.len() - at < SOT_SEGMENT {
        if at_eoc(codestream, at) {
            return Ok(None);
        }
        return types::refuse(Reason::TilePartCutShort, at as u64);
    }
    if numbers::read_u16(codestream, at) != SOT {
        return Ok(None);
    }
    sot_step(codestream, at)
}
