// How far the main header reaches in a prefix of the codestream.
ghost use Rattle.std.specs.Prelude.{◌≡◌};
ghost use Rattle.header.specs.Extent.{extent_of};
ghost use Rattle.host.specs.Extent.{extent_number, extent_value};

// 1: complete, `value` is the first SOT's offset; 0: truncated, `value` stays.
#[unsafe(no_mangle)]
pub extern "C" fn winterhasp_main_header_extent(prefix: &[u8], value: &mut u64) -> u32
    ensures value { result ≡ extent_number (extent_of prefix.now) }
    ensures value_after { value.new ≡ extent_value (extent_of prefix.now) value.old }
{
    host::extent::winterhasp_main_header_extent(prefix, value)
}
