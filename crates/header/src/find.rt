// Where the header walk stands at a marker (docs/RULES.md, "Markers in the header").
ghost use Rattle.std.specs.Prelude.{◌≡◌, ◌≤◌, length};
ghost use Rattle.header.specs.Walk.{walk_from};
ghost use Rattle.header.specs.Parse.{read_as};
ghost use Rattle.header.specs.Find.{find_in, finding};

use types::{CodestreamOffset, Refusal};

// The walk from the SIZ marker on, to its end: what is refused behind the marker is refused too.
fn walk_for(codestream: &[u8], marker: u16) -> Result<Option<CodestreamOffset>, Refusal>
    requires { 2 ≤ length codestream.now }
    ensures { result ≡ find_in (read_as codestream.now (walk_from codestream.now 2) (walk_from codestream.now 2).ended) codestream.now marker }
{
    let mut at: usize = 2;
    let mut first = None;
    while let Some(passed) = crate::walk::walk_step(codestream, at)? {
        if first.is_none() && passed.code == marker {
            first = Some(CodestreamOffset::at(at));
        }
        at = passed.next;
    }
    Ok(first)
}

// The first one, or None where there is none.
pub fn find_marker(codestream: &[u8], marker: u16) -> Result<Option<CodestreamOffset>, Refusal>
    ensures { result ≡ finding codestream.now marker }
{
    crate::parse::test_front(codestream)?;
    walk_for(codestream, marker)
}
