// How far the main header reaches in a prefix of the codestream.
ghost use Rattle.std.specs.Prelude.{◌≡◌};
ghost use Rattle.header.specs.Extent.{extent_of};
ghost use Rattle.host.specs.Extent.{extent_number, extent_value};

// 1: complete, `value` is the first SOT's offset; 0: truncated, `value` stays.
pub fn winterhasp_main_header_extent(prefix: &[u8], value: &mut u64) -> u32
    ensures value { result ≡ extent_number (extent_of prefix.now) }
    ensures value_after { value.new ≡ extent_value (extent_of prefix.now) value.old }
{
    match header::extent::main_header_extent(prefix) {
        Some(first_sot) => {
            *value = first_sot.0;
            1
        }
        None => 0,
    }
}
