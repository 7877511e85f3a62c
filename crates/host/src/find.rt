// A marker in the main header.
ghost use Rattle.std.specs.Prelude.{◌≡◌};
ghost use Rattle.header.specs.Find.{finding};
ghost use Rattle.host.specs.Find.{finding_number, finding_value};

use types::{CodestreamOffset, Refusal};

fn tell_finding(answer: Result<Option<CodestreamOffset>, Refusal>, value: &mut u64) -> u32
    ensures value { result ≡ finding_number answer }
    ensures value_after { value.new ≡ finding_value answer value.old }
{
    match answer {
        Ok(Some(offset)) => {
            *value = offset.0;
            0
        }
        Ok(None) => 257,
        Err(refusal) => {
            *value = refusal.place;
            refusal.number()
        }
    }
}

// `value`: the offset of the first one, or a refusal's place. 257 where there is none.
pub fn winterhasp_find_marker(codestream: &[u8], marker: u16, value: &mut u64) -> u32
    ensures value { result ≡ finding_number (finding codestream.now marker) }
    ensures value_after { value.new ≡ finding_value (finding codestream.now marker) value.old }
{
    let answer = header::find::find_marker(codestream, marker);
    tell_finding(answer, value)
}
