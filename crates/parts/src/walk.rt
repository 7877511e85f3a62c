// The judging walk from a start on, and the marks that it leaves, so that what reads the tile-parts again goes from four places at once.
// A mark is kept at the start and behind every so many tile-parts; where there are as many as there is room for, every other one goes.
ghost use Rattle.std.specs.Prelude.{◌≡◌, ◌^◌, ◌≤◌, ◌<◌, length};
ghost use Rattle.parts.specs.Scan.{scan_from, judged, scanned};
ghost use Rattle.parts.specs.Walk.{Passes, Halved, quarters_by, walked_as, Runs};

use types::{CodestreamOffset, Reason, Refusal};

// How a pass ends: three ways, and how far it came stands beside each (`Passed`), so that a `Result` has no place for it.
#[derive(Clone, Copy)]
pub enum Stop {
    // As many as were asked for.
    Full,
    Ended,
    Refused(Refusal),
}

// So many tile-parts were passed, up to there.
#[derive(Clone, Copy)]
pub struct Passed {
    pub count: u64,
    pub at: usize,
    pub stop: Stop,
}

// All tile-parts of a scan. Its first are four runs of so many each, one behind the other, and at least one follows them; where the
// second, the third and the fourth run start.
#[derive(Clone, Copy)]
pub struct Quarters {
    pub parts: u64,
    pub turns: usize,
    pub second: usize,
    pub third: usize,
    pub fourth: usize,
}

// Passes at most so many tile-parts.
fn pass(codestream: &[u8], start: usize, most: u64) -> Passed
    ensures { Passes codestream.now start most result }
{
    let mut at = start;
    let mut count: u64 = 0;
    while count < most {
        let step = crate::step::scan_step(codestream, at);
        match step {
            Ok(Some(entry)) => {
                count += 1;
                at = types::end_of(entry).position();
            }
            Ok(None) => {
                return Passed {
                    count,
                    at,
                    stop: Stop::Ended,
                };
            }
            Err(refusal) => {
                return Passed {
                    count,
                    at,
                    stop: Stop::Refused(refusal),
                };
            }
        }
    }
    Passed {
        count,
        at,
        stop: Stop::Full,
    }
}

// Counts the records, and writes none.
pub fn judge(codestream: &[u8], start: usize) -> Result<u64, Refusal>
    ensures { result ≡ judged (scan_from codestream.now start) }
{
    let passed = pass(codestream, start, u64::MAX);
    let stop = passed.stop;
    match stop {
        Stop::Full | Stop::Ended => Ok(passed.count),
        Stop::Refused(refusal) => Err(refusal),
    }
}

// Every other mark, the first of them too.
fn halve(marks: &mut [usize; 64])
    requires { length marks.old ≡ 64 }
    ensures { Halved marks.old marks.new }
{
    for i in 0..32 {
        marks[i] = marks[2 * i];
    }
}

// By `used` marks with `stride` tile-parts between one and the next. Behind the last mark there may be none, so it is not counted.
fn quarter(parts: u64, stride: usize, used: usize, marks: &[usize; 64]) -> Quarters
    requires used_bound { used ≤ 64 }
    requires stride_bound { stride < 2 ^ 59 }
    ensures { result ≡ quarters_by parts stride used marks.now }
{
    let run = used.saturating_sub(2) / 4;
    let second = marks[run];
    let third = marks[2 * run];
    let fourth = marks[3 * run];
    Quarters {
        parts,
        turns: run * stride,
        second,
        third,
        fourth,
    }
}

// Judges the scan from a start on, and leaves marks.
fn walk(codestream: &[u8], start: usize) -> Result<Quarters, Refusal>
    ensures value { result ≡ walked_as codestream.now start (judged (scan_from codestream.now start)) }
    ensures runs { Runs codestream.now start result }
{
    let mut marks: [usize; 64] = [0; 64];
    let mut used: usize = 0;
    let mut stride: usize = 2;
    let mut at = start;
    let mut count: u64 = 0;
    loop {
        if used == 64 {
            halve(&mut marks);
            used = 32;
            stride = 2 * stride;
        }
        marks[used] = at;
        used += 1;
        let passed = pass(codestream, at, stride as u64);
        count += passed.count;
        at = passed.at;
        let stop = passed.stop;
        match stop {
            Stop::Full => {}
            Stop::Ended => return Ok(quarter(count, stride, used, &marks)),
            Stop::Refused(refusal) => return Err(refusal),
        }
    }
}

// What a scan into a table of so many rows answers, with the marks to fill it by; a start at or past the end gives no record.
pub fn decide(
    codestream: &[u8],
    first_sot_offset: CodestreamOffset,
    rows: u64,
) -> Result<Quarters, Refusal>
    ensures value { result ≡ walked_as codestream.now first_sot_offset.0 (scanned codestream.now first_sot_offset.0 rows) }
    ensures runs { Runs codestream.now first_sot_offset.0 result }
{
    let runs = walk(codestream, first_sot_offset.position())?;
    if rows < runs.parts {
        return types::refuse(Reason::TableTooSmall, runs.parts);
    }
    Ok(runs)
}
