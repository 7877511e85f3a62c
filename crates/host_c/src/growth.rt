// How much of a codestream is fetched for its main header. Neither function refuses.
ghost use Rattle.std.specs.Prelude.{◌≡◌};
ghost use Rattle.reader.specs.Growth.{next_region, grown};

// The answer is 0. `region`: the length of the last region; `enlargements`: how often it was enlarged.
#[unsafe(no_mangle)]
pub extern "C" fn winterhasp_grow_header_region(
    codestream: &[u8],
    region: &mut u64,
    enlargements: &mut u64,
) -> u32
    ensures value { result ≡ 0 }
    ensures region_after { region.new ≡ (grown codestream.now).region }
    ensures enlargements_after { enlargements.new ≡ (grown codestream.now).enlargements }
{
    host::growth::winterhasp_grow_header_region(codestream, region, enlargements)
}

// The answer is the region behind one of so many bytes, in a codestream of that length.
#[unsafe(no_mangle)]
pub extern "C" fn winterhasp_next_region(region: u64, length: u64) -> u64
    ensures { result ≡ next_region region length }
{
    host::growth::winterhasp_next_region(region, length)
}
