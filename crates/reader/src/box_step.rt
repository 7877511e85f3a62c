// One box of a list (docs/RULES.md, "Boxes"): what stands at a position, judged whole, for the pass that counts and the one that fills.
ghost use Rattle.std.specs.Prelude.{◌≡◌, ◌+◌, ◌≤◌};
ghost use Rattle.reader.specs.BoxStep.{opens, judged_box, step_at};

use crate::box_row::BoxEntry;
use crate::search::{BoxHeader, NoBox};
use types::{FileOffset, Reason, Refusal, refuse};

// The types of superboxes: "jp2h", "res " and "uinf".
const JP2H: u32 = 0x6a70_3268;

const RES: u32 = 0x7265_7320;

const UINF: u32 = 0x7569_6e66;

// Boxes lie at depth 8 at most.
const DEEPEST: u8 = 8;

// What stands at a position of a list.
#[derive(Clone, Copy)]
pub enum ListStep {
    // A box that holds no list.
    Plain(BoxEntry),
    // A superbox with content, above depth 8.
    Superbox(BoxEntry),
}

// `matches!` hands the prover no equation.
fn is_superbox(kind: u32) -> bool
    ensures { result ≡ opens kind }
{
    kind == JP2H || (kind == RES || kind == UINF)
}

// A box that was read, in a list that ends at `size`: 28, 16, 27, then 29.
fn judge_box(size: u64, depth: u8, at: u64, found: BoxHeader) -> Result<Option<ListStep>, Refusal>
    requires { at + found.header ≤ size }
    ensures { result ≡ judged_box size depth at found }
{
    if found.length < found.header {
        return refuse(Reason::BoxLengthWrong, at);
    }
    let Some(end) = at.checked_add(found.length) else {
        return refuse(Reason::BoxTooLong, at);
    };
    if size < end {
        return refuse(Reason::BoxDoesNotFit, at);
    }
    let entry = BoxEntry {
        depth,
        kind: found.kind,
        start: FileOffset(at),
        content: FileOffset(at + found.header),
        length: found.length - found.header,
    };
    if !is_superbox(found.kind) || entry.length == 0 {
        return Ok(Some(ListStep::Plain(entry)));
    }
    if DEEPEST <= depth {
        return refuse(Reason::BoxesTooDeep, at);
    }
    Ok(Some(ListStep::Superbox(entry)))
}

// One box of a list that fills `within`, the file up to where the list ends; None where the list ends. Places are file offsets.
pub fn list_step(within: &[u8], depth: u8, at: usize) -> Result<Option<ListStep>, Refusal>
    ensures { result ≡ step_at within.now depth at }
{
    if within.len() <= at {
        return Ok(None);
    }
    let found = match crate::search::box_at(within, at) {
        Ok(found) => found,
        Err(NoBox::End) => return refuse(Reason::BoxDoesNotFit, at as u64),
        Err(NoBox::CutShort) => return refuse(Reason::BoxCutShort, at as u64),
    };
    if 1 < depth && numbers::read_u32(within, at) == 0 {
        return refuse(Reason::BoxLengthWrong, at as u64);
    }
    judge_box(within.len() as u64, depth, at as u64, found)
}
