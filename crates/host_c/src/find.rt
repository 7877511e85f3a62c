// A marker in the main header.
ghost use Rattle.std.specs.Prelude.{◌≡◌};
ghost use Rattle.header.specs.Find.{finding};
ghost use Rattle.host.specs.Find.{finding_number, finding_value};

// `value`: the offset of the first one, or a refusal's place. 257 where there is none.
#[unsafe(no_mangle)]
pub extern "C" fn winterhasp_find_marker(codestream: &[u8], marker: u16, value: &mut u64) -> u32
    ensures value { result ≡ finding_number (finding codestream.now marker) }
    ensures value_after { value.new ≡ finding_value (finding codestream.now marker) value.old }
{
    host::find::winterhasp_find_marker(codestream, marker, value)
}
